//! Laws of the definitions that the contracts of this crate use. The functions do nothing: the contract of
//! each is a law.

ghost use Rattle.std.specs.Prelude.{◌≡◌, ◌<◌, ℕ, ◌==◌, List, [], ◌∷◌, ◌++◌, None, Some, if◌then◌else◌};
ghost use Rattle.std.specs.Prelude.{option_map};
ghost use Rattle.std.specs.List.{AllByRecursion};
ghost use Rattle.qtables.specs.Entries.{entry_at, with_record, without_entry};
ghost use Rattle.qtables.specs.declared.member.Member.{Member};
ghost use Rattle.qtables.specs.Members.{member_at, with_member, IsRoster};

/// Adding a thread that isn't in the roster adds its own entry and changes no other. The members are still in
/// rising number.
pub fn joins_just_its_own()
    ensures own { (m : Member) (roster : List Member) (thread : ℕ) → member_at roster m.thread ≡ None →
        member_at (with_member m roster) thread
        ≡ (if m.thread == thread then Some m else member_at roster thread) }
    ensures rising { (m : Member) (roster : List Member) → IsRoster roster
        → member_at roster m.thread ≡ None →
        IsRoster (with_member m roster) }
{}

/// A table is a map: each change of its entries changes the look-up of exactly one number.
pub fn tables_are_maps<Record>()
    ensures created { (entries : List (ℕ × Record)) (number : ℕ) (entry : Record) (id : ℕ)
        → AllByRecursion (λ e. e.0 < number) entries →
        entry_at (entries ++ (number, entry) ∷ []) id
        ≡ (if number == id then Some entry else entry_at entries id) }
    ensures written { (entries : List (ℕ × Record)) (number : ℕ) (entry : Record) (id : ℕ) →
        entry_at (with_record entries number entry) id
        ≡ (if number == id then option_map (λ _. entry) (entry_at entries id) else entry_at entries id) }
    ensures removed { (entries : List (ℕ × Record)) (number : ℕ) (id : ℕ) →
        entry_at (without_entry entries number) id ≡ (if number == id then None else entry_at entries id) }
{}

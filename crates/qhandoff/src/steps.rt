//! The rule of the table of cells, and a name for each kind of step. `specs/Rule.antt` and `specs/Steps.antt`
//! define them.

ghost use Rattle.qhandoff.specs.Rule.{KeepsRule};
ghost use Rattle.qhandoff.specs.Steps.{first_view, seats_one_more, next_thread_view, joined_views, OpenTells};
ghost use Rattle.qhandoff.specs.Steps.{CancelTells, BeginPutTells, EndPutTells, TakeTells, GiveBackTells};
ghost use Rattle.qhandoff.specs.declared.view.View.TheVariants.{Joined};

use crate::cells::CellsKey;
use crate::delivered::{Delivered, Told};
use crate::view::View;
use atomic_table::{Join, Play, Split, TableRule};
use std::marker::PhantomData;

/// The rule that holds between any two steps.
pub struct HandOff;

impl<T: Delivered<O>, O> TableRule<Option<T>, View<T>, CellsKey<O>> for HandOff {
    ghost holds = { λ key. KeepsRule (T.may_be_put key.origin.value) key.threads };

    ghost first = { λ key. first_view key.threads };
}

/// Splits a thread's token off the kernel's token, as the cells are made.
pub struct SeatOne;

impl<T> Split<View<T>> for SeatOne {
    ghost left = { seats_one_more };

    ghost right = { next_thread_view };
}

/// Joins a thread's token to the kernel's token, as the cells are closed. The kernel's token then knows the
/// completions that the other took.
pub struct JoinOne;

impl<T> Join<View<T>> for JoinOne {
    ghost both = { joined_views };

    ghost spent = { Joined };
}

/// The kernel's token opens an idle cell.
pub struct Open;

impl<T> Play<Option<T>, View<T>> for Open {
    ghost then = { OpenTells };
}

/// The kernel's token makes an opened cell idle again.
pub struct Cancel;

impl<T> Play<Option<T>, View<T>> for Cancel {
    ghost then = { CancelTells };
}

/// The kernel's token begins to put a completion into an opened cell, and holds its slot until `EndPut`.
pub struct BeginPut;

impl<T> Play<Option<T>, View<T>> for BeginPut {
    ghost then = { BeginPutTells };
}

/// The kernel's token has put a completion, and releases the slot.
pub struct EndPut;

impl<T> Play<Option<T>, View<T>> for EndPut {
    ghost then = { EndPutTells };
}

/// A thread's token begins to take the completion out of its full cell, and holds its slot until `GiveBack`.
/// W names the condition that it is told.
pub struct Take<W> {
    of: PhantomData<W>,
}

impl<T, W: Told<T>> Play<Option<T>, View<T>> for Take<W> {
    ghost then = { TakeTells W.told };
}

/// A thread's token has taken the completion, and releases the slot.
pub struct GiveBack;

impl<T> Play<Option<T>, View<T>> for GiveBack {
    ghost then = { GiveBackTells };
}

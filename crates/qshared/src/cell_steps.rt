//! The steps of the tokens of the cells, in terms of completions alone.

ghost use Rattle.std.specs.Prelude.{◌≡◌, ◌<◌, ◌++◌, [], ◌∷◌, true};
ghost use Rattle.qrules.specs.Facts.{threads_of};
ghost use Rattle.qhandoff.specs.Rule.{line};
ghost use Rattle.qhandoff.specs.Steps.{cancelled_kernel_view, put_kernel_view};
ghost use Rattle.qhandoff.specs.Words.{cells_id, count, kernel_id};
ghost use Rattle.qshared.specs.Delivered.{kernel_view, origin_of, IsDelivered};

use crate::delivery::{Delivery, Origin};
use crate::history::Prefix;
use qhandoff::cells::Cells;
use qhandoff::seats::KernelSeat;
use qmodel::call::Completion;

/// Makes an opened cell idle again.
pub(crate) fn cancel(seat: &mut KernelSeat<Delivery>, cells: &Cells<Delivery, Origin>, cell: usize)
    requires cells { kernel_id seat.old ≡ cells_id cells.now }
    requires cell { cell < count cells.now }
    requires opened { (line (kernel_view seat.old) cell).opened ≡ true }
    ensures cells { kernel_id seat.new ≡ kernel_id seat.old }
    ensures kernel_view { kernel_view seat.new ≡ cancelled_kernel_view (kernel_view seat.old) cell }
{
    seat.cancel(cells, cell)
}

/// Puts a completion into an opened cell, with the history up to the event that made it.
pub(crate) fn put(
    seat: &mut KernelSeat<Delivery>,
    cells: &Cells<Delivery, Origin>,
    cell: usize,
    completion: Completion,
    seen: &Prefix,
)
    requires cells { kernel_id seat.old ≡ cells_id cells.now }
    requires cell { cell < count cells.now }
    requires opened { (line (kernel_view seat.old) cell).opened ≡ true }
    requires seen { seen.now.name ≡ (origin_of cells.now).seen.name }
    requires delivered { IsDelivered (origin_of cells.now).roster.value cell
        ((line (kernel_view seat.old) cell).put ++ completion ∷ []) completion seen.now.trace }
    ensures cells { kernel_id seat.new ≡ kernel_id seat.old }
    ensures kernel_view { kernel_view seat.new
        ≡ put_kernel_view (kernel_view seat.old) cell completion }
{
    let delivery = Delivery {
        completion,
        seen: seen.again(),
    };
    seat.put(cells, cell, delivery);
}

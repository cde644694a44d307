ghost use Rattle.std.specs.Prelude.{◌≡◌};
ghost use Rattle.mr_history.specs.Fits.{FitsLimits};

use crate::machine::Machine;
use crate::names::RunName;
use mr_base::Memory;
use mr_book::Opened as OpenedBook;
use mr_history::{MOST_DAEMONS, MOST_LANES};
use mr_model::Limits;
use std::alloc::Global;
use std::marker::Model;

/// The router itself, which ends the phases, and as many lanes and daemons as there may be.
pub(crate) const CALLERS: u32 = 1 + MOST_LANES as u32 + MOST_DAEMONS as u32;

/// A router that has no name yet. Contracts see the table of its book's count.
pub struct Opened<C: RunName> {
    pub(crate) book: OpenedBook<Machine<C>>,
}

impl<C: RunName> Model for Opened<C> {
    ghost use Rattle.std.specs.Prelude.{◌≡◌};
    ghost use Rattle.atomic_table.specs.Seated.{TableId};
    ghost use Rattle.mr_router.specs.declared.opened.TheConstants.{CALLERS};

    ghost Value = { TableId };

    ghost view = { λ o. o.book.table };

    ghost invariant = { λ o. o.book.callers ≡ CALLERS };
}

impl<C: RunName> Opened<C> {
    /// The machine of these limits with an empty history, for callers who share it.
    ///
    /// # Errors
    ///
    /// [`Memory`] where memory runs out.
    pub fn new(alloc: Global, limits: &Limits) -> Result<Opened<C>, Memory>
        requires limits { limits.now ≡ C.limits }
        requires fits { FitsLimits limits.now }
    {
        let machine = Machine::<C>::with(alloc, limits)?;
        match OpenedBook::new(alloc, machine, CALLERS) {
            Ok(book) => Ok(Opened { book }),
            Err((machine, Memory)) => {
                drop(machine.into_kernel());
                Err(Memory)
            }
        }
    }
}

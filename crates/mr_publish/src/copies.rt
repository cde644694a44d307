//! The two copies, of which lookers see one.
ghost use Rattle.std.specs.Prelude.{◌≡◌, [], drop, fold, MatchResult, IfOk, IfErr};
ghost use Rattle.mr_publish.specs.Copies.{taken, tables_after};

use crate::front::Mark;
use crate::names::PairName;
use crossbeam_utils::rule::{Outcome, Protocol};
use left_right::Absorb;
use left_right::reader::{Reader, Reading};
use left_right::writer::Writer;
use mr_model::Change;
use mr_tables::Tables;
use std::alloc::AllocError;
use std::marker::PhantomData;
use std::sync::Wait;

/// A copy of the tables, with the published changes that it holds.
#[derive(Drop)]
pub struct TablesCopy {
    pub tables: Tables,
    pub mark: Mark,
}

/// What is published at once: the changes, and the list of all published ones with them.
#[derive(Drop)]
pub struct Batch {
    pub changes: Vec<Change>,
    pub mark: Mark,
}

impl Absorb<Batch> for TablesCopy {
    ghost use Rattle.std.specs.Prelude.{fold};
    ghost use Rattle.mr_publish.specs.Copies.{taken};

    type State = TablesCopy;

    ghost state = { λ copy. copy };

    ghost applied = { λ copy batch. record {
      tables = fold taken copy.tables batch.changes.items;
      mark = batch.mark;
    } };

    ghost never_fails = { Unit {0} };

    fn absorb_first(&mut self, operation: &Batch, _other: &TablesCopy) -> Result<(), AllocError> {
        take_changes(&mut self.tables, operation.changes.as_slice());
        self.mark = operation.mark.again();
        Ok(())
    }
}

/// Makes changes one after another, and passes over each that does not fit.
fn take_changes(tables: &mut Tables, changes: &[Change])
    ensures { tables.new ≡ fold taken tables.old changes.now }
{
    for change in changes {
        if tables.fits(change) {
            tables.apply(change);
        }
    }
}

/// What holds of the copy that lookers see: its tables are those after the published changes that
/// it holds.
pub struct Shown<J: PairName> {
    of: PhantomData<J>,
}

impl<J: PairName> Protocol<TablesCopy, ()> for Shown<J> {
    ghost use Rattle.std.specs.Prelude.{◌≡◌};
    ghost use Rattle.mr_publish.specs.Copies.{tables_after};

    ghost holds = { λ copy _. (copy.mark.list ≡ J.list)
        × (copy.tables ≡ tables_after J.start copy.mark.changes) };

    ghost first = { tt };
}

/// The same is told to whoever enters the copy.
pub struct Sees<J: PairName> {
    of: PhantomData<J>,
}

impl<J: PairName> Outcome<TablesCopy, ()> for Sees<J> {
    ghost use Rattle.std.specs.Prelude.{◌≡◌};
    ghost use Rattle.mr_publish.specs.Copies.{tables_after};

    ghost then = { λ _ _ copy _. (copy.mark.list ≡ J.list)
        × (copy.tables ≡ tables_after J.start copy.mark.changes) };
}

pub type CopyReader<J> = Reader<TablesCopy, (), Shown<J>>;

pub type CopyReading<J> = Reading<TablesCopy, (), Shown<J>>;

pub type CopyWriter<J> = Writer<TablesCopy, Batch, (), Shown<J>>;

/// Shows lookers a copy with a batch more.
///
/// # Errors
///
/// The writer, as it was, where there is no room for the batch.
pub fn show<J: PairName, R: Wait>(
    rt: &R,
    back: CopyWriter<J>,
    batch: Batch,
) -> Result<CopyWriter<J>, CopyWriter<J>>
    requires pending { drop back.behind back.log.items ≡ [] }
    requires list { batch.mark.list ≡ J.list }
    requires tables { fold taken back.desk.shown.value.tables batch.changes.items
        ≡ tables_after J.start batch.mark.changes }
    ensures pending { IfOk result (λ w. drop w.behind w.log.items ≡ []) }
    ensures tables { IfOk result (λ w.
        w.desk.shown.value.tables ≡ tables_after J.start batch.mark.changes) }
{
    let mut back = back;
    let laid = back.append(batch);
    let Ok(()) = laid else { return Err(back) };
    let (back, shown) = back.publish_as::<Sees<J>, R>(rt);
    let Ok(()) = shown else { unreachable!() };
    Ok(back)
}

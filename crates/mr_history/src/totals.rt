//! The totals that are kept.

use crate::most::VIFS;
use crate::numbered::Numbered;
use mr_model::{RouteTotals, VifTotals};

/// The totals of a vif, with its number.
#[derive(Clone, Copy, Debug)]
pub(crate) struct VifKept {
    pub number: u32,
    pub totals: VifTotals,
}

/// The totals of the (S,G) entries by number, and of the vifs by index.
#[derive(Debug, Drop)]
pub(crate) struct Totals {
    pub routes: Numbered<RouteTotals>,
    pub vifs: [Option<VifKept>; VIFS],
}

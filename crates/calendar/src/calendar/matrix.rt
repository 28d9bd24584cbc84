ghost use Rattle.std.specs.Prelude.{◌≡◌, ◌^◌, ◌<◌};
ghost use Rattle.calendar.specs.Figures.{figures, limit_figures};
ghost use Rattle.calendar.specs.Matrix.{BuildsMatrix, counted, own, strays};

use super::study::Study;
use super::{Calendar, Limit};
use crate::kinds::LimitKind;
use crate::reference::Reference;
use terms::Refusal;

impl Limit {
    // Whether this is one of the limits of the reference's pair.
    fn is_own(self, reference: Reference) -> bool
        ensures { result ≡ own (limit_figures self) reference }
    {
        let area = self.area.number();
        match self.kind {
            LimitKind::Export => area == reference.injection,
            LimitKind::Import => area == reference.withdrawal,
            LimitKind::Wheeling => area == reference.injection || area == reference.withdrawal,
        }
    }

    // Whether this flow of the reference strays here.
    pub(super) fn strays(self, reference: Reference, flow: i32) -> bool
        ensures { result ≡ strays (limit_figures self) reference flow }
    {
        self.kind != LimitKind::Wheeling && !self.is_own(reference) && flow >= terms::COUNTED_FLOW
    }

    // What of this flow of the reference counts here.
    pub(super) fn counted(self, reference: Reference, flow: i32) -> u32
        ensures value { result ≡ counted (own (limit_figures self) reference) flow }
        ensures bound { result < 2 ^ 31 }
    {
        if flow < 0 || flow < terms::COUNTED_FLOW && !self.is_own(reference) {
            0
        } else {
            flow as u32
        }
    }
}

impl Calendar {
    // Sets every limit's relation row by the flows of reference rights: a pair is marked where its counted flows do not sum to 0.
    // The flows, in kilowatts, stand reference after reference, each at every limit in turn.
    pub fn build_matrix(&mut self, references: &[Reference], flows: &[i32]) -> Result<(), Refusal>
        ensures { BuildsMatrix self.old references.now flows.now result self.new }
    {
        let study = Study::new(self, references, flows)?;
        study.check_strays()?;
        let rows = study.rows();
        for (at, row) in rows.as_slice().iter().enumerate() {
            let limit = self.limits.as_slice()[at];
            self.limits.set(at, Limit { row: *row, ..limit }).unwrap();
        }
        Ok(())
    }
}

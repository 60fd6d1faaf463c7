// Counts of the cases of a kind, and the lines that give them.
use crate::case::Kind;
use crate::comparison::Comparison;
use std::fmt;

#[derive(Clone, Copy)]
pub struct Tally {
    kind: Kind,
    cases: u64,
    differences: u64,
    lost: u64,
    refusals: u64,
}

impl Tally {
    pub fn new(kind: Kind) -> Tally {
        Tally {
            kind,
            cases: 0,
            differences: 0,
            lost: 0,
            refusals: 0,
        }
    }

    // One case more. No run reaches the number at which a count wraps.
    pub fn add(&mut self, found: Comparison) {
        self.cases = self.cases.wrapping_add(1);
        self.differences = self.differences.wrapping_add(u64::from(!found.calls.same));
        self.lost = self.lost.wrapping_add(u64::from(found.back == Some(false)));
        self.refusals = self.refusals.wrapping_add(u64::from(found.calls.refused));
    }

    // Of a transform, which is undone.
    fn write_transform<W: fmt::Write>(&self, f: &mut fmt::Formatter<W>) -> fmt::Result {
        writeln!(
            f,
            "{}: {} cases, {} differences, {} not given back",
            self.kind, self.cases, self.differences, self.lost
        )
    }

    // Of a call, which is not undone.
    fn write_call<W: fmt::Write>(&self, f: &mut fmt::Formatter<W>) -> fmt::Result {
        writeln!(
            f,
            "{}: {} cases, {} differences",
            self.kind, self.cases, self.differences
        )
    }
}

impl fmt::Display for Tally {
    fn fmt<W: fmt::Write>(&self, f: &mut fmt::Formatter<W>) -> fmt::Result {
        let kind = self.kind;
        let accepted = self.cases.wrapping_sub(self.refusals);
        let refused = self.refusals;
        match kind {
            Kind::Predictor | Kind::Color | Kind::SubtractGreen | Kind::ColorMap =>
                self.write_transform(f),
            Kind::ColorTable => {
                self.write_transform(f)?;
                writeln!(f, "{kind} stored: {accepted} accepted, {refused} refused")
            }
            Kind::Rebuild | Kind::Store => {
                self.write_call(f)?;
                writeln!(f, "{kind}: {accepted} accepted, {refused} refused")
            }
            Kind::Retouches | Kind::Reports => {
                self.write_call(f)?;
                writeln!(
                    f,
                    "{kind}: {accepted} accepted throughout, {refused} with a refusal"
                )
            }
        }
    }
}

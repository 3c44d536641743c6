// The cards and the entries of some stores.
ghost use Rattle.std.specs.Prelude.{◌*◌, ◌≤◌};
ghost use Rattle.model.specs.Shape.{faults_ever};
ghost use Rattle.model.specs.Report.{most_stores};

// No more entries than eight stores have faults, so that a thousand times as many still fit in 32 bits.
#[derive(Clone, Copy)]
pub struct Totals {
    pub cards: u32,
    pub entries: u32,
    ghost few: { entries ≤ most_stores * faults_ever },
}

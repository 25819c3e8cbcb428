// What is lent for the values of a sheet, counted.
ghost use Rattle.std.specs.Prelude.{◌≡◌};
ghost use Rattle.sheet_rules.specs.Lent.{lengths_lent, held_by};

use crate::SheetRoom;

impl SheetRoom<'_> {
    // How many are lent of each sort, for number 2.
    pub fn lengths(&self) -> [usize; 6]
        ensures { result ≡ lengths_lent (held_by self.now) }
    {
        [
            self.angles.len(),
            self.rounds.len(),
            self.fixed.len(),
            self.log_sines.len(),
            self.differences.len(),
            self.log_sides.len(),
        ]
    }
}

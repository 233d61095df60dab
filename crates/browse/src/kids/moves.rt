ghost use Rattle.std.specs.Prelude.{◌≡◌, ◌<◌, [], ◌∷◌, ◌++◌, length, take};
ghost use Rattle.browse.specs.Desk.{thing_of, kids_held};

use super::Kids;
use crate::waiting::Waiting;

impl Kids {
    pub(crate) fn none() -> Kids
        ensures { kids_held result ≡ [] }
    {
        Kids {
            table: [Waiting::default(); 16],
            count: 0,
        }
    }

    pub(crate) fn add(&mut self, kid: Waiting)
        requires { length (kids_held self.old) < 16 }
        ensures { kids_held self.new ≡ kids_held self.old ++ thing_of kid ∷ [] }
    {
        self.table[self.count] = kid;
        self.count += 1;
    }

    pub(crate) fn all(&self) -> &[Waiting]
        ensures { result.now ≡ take self.now.count self.now.table }
    {
        &self.table[0..self.count]
    }
}

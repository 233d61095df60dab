//! Loading: all tests first, then the tables.

ghost use Rattle.std.specs.Prelude.{◌≡◌};
ghost use Rattle.refusal.specs.Told.{answered, file_told};
ghost use Rattle.loaded.specs.Decode.{decode};
ghost use Rattle.loaded.specs.Lawful.{TakesLawful};
ghost use Rattle.loaded.specs.Load.{load_answer, held_after};
ghost use Rattle.loaded.specs.Loaded.{loaded_model};
ghost use Rattle.loaded.specs.Seen.{book_in, LawfulSections};

use crate::entries::read_place;
use crate::loaded::Loaded;
use crate::picks::fill_kinds;
use crate::record::NodeRecord;
use crate::sections::{Sections, read_sections};
use crate::tables::fill;
use refusal::hands::FileFault;

impl Loaded {
    /// Takes the book in these bytes in place of the one held. A refused load leaves that one.
    #[tactic(auto, unfolding(crate::specs::Decode::decode))]
    pub fn load(&mut self, bytes: &[u8]) -> Result<(), FileFault>
        ensures answer { answered file_told result ≡ load_answer (decode bytes.now) }
        ensures book { loaded_model self.new ≡ held_after (decode bytes.now) (loaded_model self.old) }
        ensures lawful { TakesLawful result bytes.now (loaded_model self.new) }
    {
        let sections = read_sections(bytes)?;
        if !sections.picks.rest.is_empty() {
            return Err(FileFault::Length);
        }
        self.fill(sections);
        Ok(())
    }

    /// Takes the book of these sections.
    fn fill(&mut self, sections: Sections<'_>)
        requires { LawfulSections sections }
        ensures { loaded_model self.new ≡ book_in sections.entry }
    {
        fill(
            &mut self.nodes,
            sections.nodes.records,
            |record| NodeRecord::from(*record),
        );
        fill(&mut self.places, sections.entries.records, read_place);
        fill_kinds(&mut self.kinds, sections.picks.records.as_flattened());
    }
}

// A store: files by number, each open or finished, each an ordered list of batches as words.
ghost use Rattle.std.specs.Prelude.{◌≡◌};
ghost use Rattle.resources.specs.Files.{Files, CreateLawful, create_after, AppendLawful, append_after, FinishLawful, finish_after, ReadLawful, read_place, remove_after, Ask, Reply, create as creating, append as appending, finish as finishing, read as reading, remove as removing, numbered, finished, done};

use crate::cause::Cause;

pub trait Store {
    // the files
    ghost files: { Self → Files };
    // what exactly a call does, where more is known of a store than its files
    ghost steps: { Self → Ask → Reply → Self → Type 0 };

    // Gives an unused number above 0, and an empty open file.
    fn create(&mut self) -> Result<u32, Cause>
        ensures lawful { CreateLawful (files self.old) result }
        ensures after { files self.new ≡ create_after (files self.old) result }
        ensures exact { steps self.old creating (numbered result) self.new };

    // Adds one batch of 1 to 64 words to an open file.
    fn append(&mut self, file: u32, words: &[u64]) -> Result<(), Cause>
        ensures lawful { AppendLawful (files self.old) file words.now result }
        ensures after { files self.new ≡ append_after (files self.old) file words.now result }
        ensures exact { steps self.old (appending file words.now) (finished result) self.new };

    // Finishes an open file.
    fn finish(&mut self, file: u32) -> Result<(), Cause>
        ensures lawful { FinishLawful (files self.old) file result }
        ensures after { files self.new ≡ finish_after (files self.old) file result }
        ensures exact { steps self.old (finishing file) (finished result) self.new };

    // Writes batch `batch`, from 0, to the front of the place, whose rest stays, and tells its length.
    fn read(&mut self, file: u32, batch: u32, place: &mut [u64; 64]) -> Result<usize, Cause>
        ensures lawful { ReadLawful (files self.old) file batch result }
        ensures after { files self.new ≡ files self.old }
        ensures place { place.new ≡ read_place (files self.old) file batch place.old result }
        ensures exact { steps self.old (reading file batch) (numbered result) self.new };

    // Takes the file away, if it is there.
    fn remove(&mut self, file: u32)
        ensures after { files self.new ≡ remove_after (files self.old) file }
        ensures exact { steps self.old (removing file) done self.new };
}

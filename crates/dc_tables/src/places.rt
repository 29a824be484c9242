//! Where the streams of a bus stand, by their label and SDI, so that a word is looked up at once. A place is a guess:
//! who takes it looks whether the stream there declares the word, and if that one does not, none does.
ghost use Rattle.std.specs.Prelude.{◌≡◌, ◌+◌, ◌*◌, ◌<◌, ◌≤◌, ◌==◌, ◌&&◌, length, slice_index_or};
ghost use Rattle.dc_tables.specs.Places.{AreFirst, IsPut, takes};
ghost use Rattle.dc_word.specs.Word.{label_of, sdi_of};
ghost use Rattle.dc_document.specs.declared.limits.TheConstants.{MOST_MEMBERS};

use crate::rows::Stream;
use dc_word::Word;

/// How many labels and SDIs there are: 256 labels of four SDIs each.
const PLACES: usize = 1024;

/// Where the first stream of each label and SDI stands among the streams of a bus. Those that no stream declares have
/// some place too.
#[derive(Drop)]
pub(crate) struct StreamPlaces {
    places: [u8; PLACES],
}

impl StreamPlaces {
    /// Those of these streams, put from the last to the first, so that the first one of a label and SDI stays.
    pub(crate) fn of(streams: &[Stream]) -> StreamPlaces
        requires { length streams.now ≤ MOST_MEMBERS }
        ensures { AreFirst result.places streams.now 0 }
    {
        let mut places = StreamPlaces {
            places: [0; PLACES],
        };
        let mut at = streams.len();
        while at > 0 {
            at -= 1;
            places.put(&streams[at], at as u8);
        }
        places
    }

    /// Puts the place of a stream, at each SDI that it declares.
    fn put(&mut self, stream: &Stream, at: u8)
        ensures { IsPut (λ label sdi. takes label sdi stream.now) at self.old.places self.new.places }
    {
        let label = stream.label.number();
        match stream.sdi {
            Some(sdi) => self.put_one(label, sdi.number(), at),
            None => {
                self.put_one(label, 0, at);
                self.put_one(label, 1, at);
                self.put_one(label, 2, at);
                self.put_one(label, 3, at);
            }
        }
    }

    /// Puts the place of the stream of this label and SDI.
    fn put_one(&mut self, label: u8, sdi: u8, at: u8)
        requires { sdi < 4 }
        ensures { IsPut (λ l s. (label == l) && (sdi == s)) at self.old.places self.new.places }
    {
        self.places[label as usize * 4 + sdi as usize] = at;
    }

    /// The place of the word's label and SDI.
    #[inline]
    pub(crate) fn of_word(&self, word: Word) -> usize
        ensures place { result ≡ slice_index_or self.now.places (label_of word * 4 + sdi_of word) 0 }
        ensures label { label_of word < 256 }
    {
        let label = word.label_number() as usize;
        self.places[label * 4 + word.sdi() as usize] as usize
    }
}

// A device record into its image, and the test that bytes are its image.
ghost use Rattle.std.specs.Prelude.{◌≡◌};
ghost use Rattle.record_image.specs.Image.{encoded};
ghost use Rattle.record_image.specs.Compare.{is_image};

use crate::RECORD_LENGTH;
use crate::head::head;
use record::Record;
use words::{has_words, put_words};

// Writes the image of a record; bytes of another length are left as they are.
#[tactic(auto, using(crate::specs::Inner::ImageStores::image_put), unfolding(crate::specs::Image::encoded))]
pub fn encode(record: Record, image: &mut [u8])
    ensures { image.new ≡ encoded «record» image.old }
{
    if image.len() == RECORD_LENGTH {
        put_words(image, 0, &head(record.phase, record.control));
        put_words(image, 96, &record.frame);
    }
}

// The bytes are the image of the record.
#[tactic(auto, using(crate::specs::Inner::ImageStores::image_has), unfolding(crate::specs::Compare::is_image))]
pub fn matches(record: Record, image: &[u8]) -> bool
    ensures { result ≡ is_image «record» image.now }
{
    image.len() == RECORD_LENGTH
        && has_words(image, 0, &head(record.phase, record.control))
        && has_words(image, 96, &record.frame)
}

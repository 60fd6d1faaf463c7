// A transform by itself, as a chain of one record: rebuilt from the input and compared with the output, then stored
// back.
use crate::comparison::{Compared, Comparison};
use crate::entries::every_pixel_has_entry;
use crate::failure::Failure;
use crate::sizes::packed_len;
use crate::stored::Stored;
use format::Refusal;
use letchwater::{letchwater_adjust_color_map, letchwater_unadjust_color_map};

// `image` and `strip` are for the work, and have the output's length.
#[derive(Drop)]
pub struct Transform<'a, 'b> {
    pub stored: Stored<'a>,
    pub input: &'a [u8],
    pub output: &'a [u8],
    pub image: &'b mut [u8],
    pub strip: &'b mut [u8],
}

// Whether the strip in the front of `buffer` rebuilds the picture.
fn rebuilds(stored: Stored<'_>, buffer: &mut [u8], picture: &[u8]) -> bool {
    let accepted = stored.rebuild(buffer).is_ok();
    let same = *buffer == *picture;
    accepted && same
}

impl<'a, 'b> Transform<'a, 'b> {
    // The transforms that lose nothing: the strip has to be the input.
    pub fn replay_pixels(self) -> Result<Comparison, Failure> {
        let Transform {
            stored,
            input,
            output,
            image,
            strip,
        } = self;
        if input.len() != image.len() {
            return Err(Failure::Malformed);
        }
        image.copy_from_slice(input);
        let same = rebuilds(stored, image, output);
        let accepted = stored.store(image, strip).is_ok();
        let back = *strip == *input;
        Ok(Comparison {
            calls: Compared {
                same,
                refused: !accepted,
            },
            back: Some(accepted && back),
        })
    }

    // Stored back, the strip need not be the input, since a pixel may have several indices: it has to rebuild the
    // picture. Where a pixel has no entry, and only there, the answer has to be 21.
    pub fn replay_color_table(self, size: usize) -> Result<Comparison, Failure> {
        let Transform {
            stored,
            input,
            output,
            image,
            strip,
        } = self;
        let packed = packed_len(stored.width, stored.height, size).ok_or(Failure::Malformed)?;
        if stored.data.len() / 4 < size || input.len() != packed || image.len() < packed {
            return Err(Failure::Malformed);
        }
        image[..packed].copy_from_slice(input);
        let same = rebuilds(stored, image, output);
        let storable = every_pixel_has_entry(image, &stored.data[..4 * size]);
        let outcome = stored.store(image, strip);
        let back = match outcome {
            Ok(()) => storable && rebuilds(stored, strip, image),
            Err(refusal) => !storable && refusal == Refusal::NoEntry,
        };
        Ok(Comparison {
            calls: Compared {
                same,
                refused: outcome.is_err(),
            },
            back: Some(back),
        })
    }

    // Adjusted, then undone. No plainer with `replay_pixels` in one: what they share is a copy and two comparisons.
    pub fn replay_color_map(self) -> Result<Comparison, Failure> {
        let Transform {
            input,
            output,
            image,
            ..
        } = self;
        if input.len() != image.len() {
            return Err(Failure::Malformed);
        }
        image.copy_from_slice(input);
        let adjusted = letchwater_adjust_color_map(image).is_ok();
        let same = *image == *output;
        let unadjusted = letchwater_unadjust_color_map(image).is_ok();
        let back = *image == *input;
        Ok(Comparison {
            calls: Compared {
                same: adjusted && same,
                refused: false,
            },
            back: Some(unadjusted && back),
        })
    }
}

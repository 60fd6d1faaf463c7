// The list, case by case: a header, then its parts, each of at most 16384 bytes.
use crate::calls::{Answer, replay_calls};
use crate::case::{Call, Kind, OnChain, Reports, Retouches, Single};
use crate::comparison::{Compared, Comparison, both};
use crate::failure::Failure;
use crate::parts::{MOST, compare_part, front, part};
use crate::reports::report;
use crate::retouches::Retouched;
use crate::sizes::picture_len;
use crate::stored::Stored;
use crate::transforms::Transform;
use std::io::{BufRead, Read};

// Buffers for the parts of a case, and two for the work: the same for all cases, since what is looked at in them was
// read or filled before.
#[derive(Clone, Copy)]
pub struct Buffers {
    chain: [u8; MOST],
    data: [u8; MOST],
    input: [u8; MOST],
    output: [u8; MOST],
    image: [u8; MOST],
    strip: [u8; MOST],
}

impl Buffers {
    pub fn new() -> Buffers {
        Buffers {
            chain: [0; MOST],
            data: [0; MOST],
            input: [0; MOST],
            output: [0; MOST],
            image: [0; MOST],
            strip: [0; MOST],
        }
    }

    // Data, input and output of a transform by itself, as they follow in the list. What stands in the buffers for the
    // work must not matter, so it is not zero.
    fn read_single<'a>(
        &'a mut self,
        list: &mut impl Read,
        c: &'a Single,
    ) -> Result<Transform<'a, 'a>, Failure> {
        let len = picture_len(c.width, c.height).ok_or(Failure::Malformed)?;
        let data = part(list, &mut self.data, c.data_len)?;
        let input = part(list, &mut self.input, c.input_len)?;
        let output = part(list, &mut self.output, len)?;
        let image = front(&mut self.image, len)?;
        image.fill(165);
        let strip = front(&mut self.strip, len)?;
        strip.fill(165);
        let stored = Stored {
            width: c.width,
            height: c.height,
            chain: &c.record,
            data,
        };
        Ok(Transform {
            stored,
            input,
            output,
            image,
            strip,
        })
    }

    // Input and output of a case on a chain as they follow in the list, beside what the picture is stored by.
    fn read_on_chain<'a>(
        &'a mut self,
        list: &mut impl Read,
        c: OnChain,
    ) -> Result<(Stored<'a>, &'a mut [u8], &'a mut [u8]), Failure> {
        let chain = part(list, &mut self.chain, c.chain_len)?;
        let data = part(list, &mut self.data, c.data_len)?;
        let input = part(list, &mut self.input, c.input_len)?;
        let output = part(list, &mut self.output, c.output_len)?;
        let stored = Stored {
            width: c.width,
            height: c.height,
            chain,
            data,
        };
        Ok((stored, input, output))
    }
}

// A function for each way to replay a transform: the check does not cover a closure that takes what the buffers lend.
fn replay_pixels(
    list: &mut impl Read,
    buffers: &mut Buffers,
    c: Single,
) -> Result<Comparison, Failure> {
    let transform = buffers.read_single(list, &c)?;
    transform.replay_pixels()
}

fn replay_color_table(
    list: &mut impl Read,
    buffers: &mut Buffers,
    c: Single,
) -> Result<Comparison, Failure> {
    let transform = buffers.read_single(list, &c)?;
    transform.replay_color_table(c.size as usize)
}

fn replay_color_map(
    list: &mut impl Read,
    buffers: &mut Buffers,
    c: Single,
) -> Result<Comparison, Failure> {
    let transform = buffers.read_single(list, &c)?;
    transform.replay_color_map()
}

// Rebuilding goes in the input's buffer.
fn replay_rebuild(
    list: &mut impl Read,
    buffers: &mut Buffers,
    c: Call,
) -> Result<Compared, Failure> {
    let (stored, image, output) = buffers.read_on_chain(list, c.parts)?;
    let answer = Answer::from(stored.rebuild(image)).compare(c.answer);
    Ok(answer.and(Compared::bytes(image, output)))
}

// Storing goes into a strip that is not zero.
fn replay_store(list: &mut impl Read, buffers: &mut Buffers, c: Call) -> Result<Compared, Failure> {
    let (stored, picture, output) = buffers.read_on_chain(list, c.parts)?;
    let mut strip = [165u8; MOST];
    let strip = front(&mut strip, output.len())?;
    let answer = Answer::from(stored.store(picture, strip)).compare(c.answer);
    Ok(answer.and(Compared::bytes(strip, output)))
}

// A list of retouches: its answers, and what it leaves of picture and strip.
fn replay_retouches(
    list: &mut impl Read,
    buffers: &mut Buffers,
    c: Retouches,
) -> Result<Compared, Failure> {
    let (stored, picture, strip) = buffers.read_on_chain(list, c.parts)?;
    let mut retouched = Retouched {
        stored,
        picture,
        strip,
    };
    let answers = replay_calls(list, c.calls, |_, call| Ok(retouched.retouch(call)))?;
    let with_picture = both(answers, compare_part(list, retouched.picture))?;
    both(with_picture, compare_part(list, retouched.strip))?.ok_or(Failure::Malformed)
}

// A list of reports: its answers, and the counters that it leaves.
fn replay_reports(list: &mut impl Read, c: Reports) -> Result<Compared, Failure> {
    let mut colors = [0u8; MOST];
    let mut counters = [0u8; MOST];
    let colors = part(list, &mut colors, c.colors_len)?;
    let counters = part(list, &mut counters, c.counters_len)?;
    let answers = replay_calls(
        list,
        c.calls,
        |list, call| report(list, call, colors, counters),
    )?;
    both(answers, compare_part(list, counters))?.ok_or(Failure::Malformed)
}

// The next case; none at the list's end.
pub fn replay_next(
    list: &mut impl BufRead,
    buffers: &mut Buffers,
) -> Result<Option<(Kind, Comparison)>, Failure> {
    if list.fill_buf()?.is_empty() {
        return Ok(None);
    }
    let mut header = [0u8; 16];
    list.read_exact(&mut header)?;
    let kind = Kind::try_from(header[0])?;
    let comparison = match kind {
        Kind::Predictor | Kind::Color | Kind::SubtractGreen => {
            replay_pixels(list, buffers, Single::from(&header))?
        }
        Kind::ColorTable => replay_color_table(list, buffers, Single::from(&header))?,
        Kind::ColorMap => replay_color_map(list, buffers, Single::from(&header))?,
        Kind::Rebuild => replay_rebuild(list, buffers, Call::from(&header))?.into(),
        Kind::Store => replay_store(list, buffers, Call::from(&header))?.into(),
        Kind::Retouches => replay_retouches(list, buffers, Retouches::from(&header))?.into(),
        Kind::Reports => replay_reports(list, Reports::from(&header))?.into(),
    };
    Ok(Some((kind, comparison)))
}

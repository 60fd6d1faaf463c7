// The worked pictures of document 01 and of the format's text, and reports worked out from document 02, run through the
// calls of `letchwater`: a line for each call, with its number and the bytes that came out.
#![tactic(auto)]

mod calls;
mod chains;
mod color_pictures;
mod limits;
mod predictor_pictures;
mod print;
mod report_pictures;
mod retouch_pictures;
mod table_pictures;

use std::io;

fn main(rt: HostRuntime) -> io::Result<()> {
    predictor_pictures::borders(&rt)?;
    predictor_pictures::inner(&rt)?;
    predictor_pictures::twice_rounded(&rt)?;
    predictor_pictures::stored(&rt)?;
    predictor_pictures::modes(&rt)?;
    color_pictures::deltas(&rt)?;
    color_pictures::pixels(&rt)?;
    color_pictures::color_map(&rt)?;
    table_pictures::past_size(&rt)?;
    table_pictures::bundles(&rt)?;
    table_pictures::empty_chain(&rt)?;
    table_pictures::table_then_predictor(&rt)?;
    retouch_pictures::middle(&rt)?;
    retouch_pictures::shared(&rt)?;
    retouch_pictures::five(&rt)?;
    retouch_pictures::entries(&rt)?;
    report_pictures::shipment(&rt)?;
    report_pictures::lists(&rt)?;
    report_pictures::full(&rt)?;
    limits::limits(&rt)
}

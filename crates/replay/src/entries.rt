// Whether a picture can be stored through a color table, by comparing each pixel with each entry: no code of the
// table's crate is asked.

pub fn every_pixel_has_entry(image: &[u8], entries: &[u8]) -> bool {
    image.chunks_exact(4).all(|pixel| entries.chunks_exact(4).any(|entry| entry == pixel))
}

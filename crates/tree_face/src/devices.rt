//! The devices of a command, as one value.
/// What a command works on: the files of the image, the files that it keeps, its input and its output.
///
/// It is made after the arguments are parsed, so that an option can name a directory or a file.
#[derive(Drop)]
pub struct Devices<'a, S, D, I, O> {
    /// The contents of the image's files.
    pub store: &'a mut S,
    /// The manifest, the cache and the auxiliary cache.
    pub disk: &'a mut D,
    pub source: &'a mut I,
    pub sink: &'a mut O,
}

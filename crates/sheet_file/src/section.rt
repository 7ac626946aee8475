ghost use Rattle.std.specs.Prelude.{◌+◌, ◌<◌, ◌^◌, length};

// The bytes of a part of a file, and where it begins.
#[derive(Clone, Copy)]
pub(crate) struct Section<'a> {
    pub(crate) bytes: &'a [u8],
    pub(crate) start: usize,
    ghost within: { start + length bytes.now < 2 ^ 63 },
}

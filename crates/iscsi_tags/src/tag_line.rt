//! A tag in use.

ghost use Rattle.std.specs.Prelude.{◌≡◌, ◌<◌, length};
ghost use Rattle.iscsi_tags.specs.Tags.{line_at};

/// A tag in use: its line, and how often it is used.
#[derive(Clone, Copy, Debug, PartialEq, Eq)]
pub struct TagLine {
    pub tag: u32,
    pub line: u32,
    pub uses: u32,
}

/// What stands at a place.
#[inline(always)]
pub(crate) fn line_at(tags: &[TagLine], k: usize) -> &TagLine
    requires { k < length tags.now }
    ensures { result.now ≡ line_at tags.now k }
{
    &tags[k]
}

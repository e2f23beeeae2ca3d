// Numbers that tell tags apart without reading them.
ghost use Rattle.std.specs.Prelude.{◌≡◌};
ghost use Rattle.dump_sections.specs.Inner.Marks.{mark_of};

// A number computed from all bytes of a tag. Most tags have different
// ones, but whoever writes a dump can make tags that share one.
#[tactic(auto, unfolding(crate::specs::Inner::Marks::mark_of))]
pub(crate) fn mark_of(tag: &[u8]) -> u64
    ensures { result ≡ mark_of tag.now }
{
    let mut mark = 0u64;
    for byte in tag {
        mark = mark
            .wrapping_mul(1_099_511_628_211)
            .wrapping_add(u64::from(*byte));
    }
    mark
}

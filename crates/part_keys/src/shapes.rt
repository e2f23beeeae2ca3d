// The shapes of keys and of parts, for which the heap is read twice.
ghost use Rattle.std.specs.Prelude.{◌≡◌, ◌*◌, ◌<◌, length, map, All, IfErr, IfOk};
ghost use Rattle.dump_io.specs.Dumps.{IfTold, ReadsAtMost};
ghost use Rattle.dump_io.specs.Faults.{IsReadCauseOf};
ghost use Rattle.dump_sections.specs.Index.{sections_in, IsBuiltOver};
ghost use Rattle.dump_sections.specs.Loading.{bodies_length};
ghost use Rattle.heap_cells.specs.Loading.{heap_bodies};
ghost use Rattle.heap_skeleton.specs.Skeletons.{skeleton_for};
ghost use Rattle.part_keys.specs.Keys.{key_shapes};
ghost use Rattle.part_keys.specs.KeyPlaces.{AreKeysWithin};
ghost use Rattle.part_keys.specs.PartShapes.{part_shapes, AreShapedWithin};
ghost use Rattle.part_keys.specs.Inner.KeyTexts.{key_text};
ghost use Rattle.part_keys.specs.Inner.PartTexts.{part_text};

use crate::key_places::KeyPlace;
use crate::needed::{Wanted, tuples_of, wanted_of};
use crate::shaped::ShapedPart;
use crate::shown_keys::key_texts;
use crate::shown_parts::part_texts;
use dump_io::{Dumps, ReadFault};
use dump_sections::Index;
use heap_skeleton::Skeleton;
use std::alloc::{AllocError, Global};
use tuple_fronts::{MOST_ELEMENTS, Texts, Tuples, inner_texts};

/// The shapes of keys and those of parts, each in the order in which they were asked for.
#[derive(Drop)]
pub struct PartTexts {
    /// The shapes of the keys, which are labels.
    pub labels: Texts,
    /// The shapes of the parts.
    pub shapes: Texts,
}

// The shapes of keys and of parts, from the first elements of the cells in which they stand and those of the tuples that are
// needed.
fn texts_of(
    alloc: Global,
    skeleton: &Skeleton,
    firsts: &Tuples,
    tuples: &Tuples,
    keys: &[KeyPlace],
    parts: &[ShapedPart],
) -> Result<PartTexts, AllocError>
    requires tuples { All (λ n. n < length skeleton.now.leads) tuples.now.cells }
    requires parts { AreShapedWithin (length skeleton.now.leads) parts.now }
    ensures labels { IfOk result (λ texts. texts.labels ≡ map (key_text skeleton.now firsts.now tuples.now) keys.now) }
    ensures shapes { IfOk result (λ texts. texts.shapes ≡ map (part_text skeleton.now firsts.now tuples.now) parts.now) }
{
    let inner = inner_texts(alloc, skeleton, tuples, false)?;
    let labels = key_texts(alloc, skeleton, firsts, tuples, &inner, keys)?;
    let shapes = part_texts(alloc, skeleton, firsts, tuples, &inner, parts)?;
    Ok(PartTexts { labels, shapes })
}

/// Reads the heap of a process and the literals twice, each time in pieces of at most 65,536 bytes, and returns the
/// shapes of keys of maps and of parts, each in the order given: of a key `-` if nothing stands under one, and `?` where
/// there is none. The skeleton is that of this heap. The index was built over the open file, which stays open.
///
/// Returns `Read` only if the device's count of faults rose; `Memory` may come from any allocation, and comes if the
/// texts of elements that are kept, or the shapes of keys or those of parts, have 4 GiB or more. Whatever it returns, at
/// most twice as many bytes are read as the two bodies have. Beside the shapes, of at most 275 bytes for a key and 2,213
/// for a part, it needs the texts of the elements up to the last key of those tuples whose elements are keys, of the heads
/// and tails of those lists whose heads are keys or whose tails are values, of the first 8 elements of the tuples to which
/// keys refer, of those that parts are, and of the tuples among the first 8 elements of these, and what each tuple is
/// inside a message, of at most 275 bytes.
pub fn read_shapes<D: Dumps>(
    alloc: Global,
    dumps: &mut D,
    index: &Index,
    pid: &[u8],
    skeleton: &Skeleton,
    keys: &[KeyPlace],
    parts: &[ShapedPart],
) -> Result<PartTexts, ReadFault>
    requires over { IsBuiltOver (D.state dumps.old).now index.now }
    requires keys { AreKeysWithin (length skeleton.now.leads) keys.now }
    requires parts { AreShapedWithin (length skeleton.now.leads) parts.now }
    requires skeleton { IfTold (D.state dumps.old).now
        (λ dump. skeleton.now ≡ skeleton_for dump index.now pid.now) }
    ensures reads { ReadsAtMost (D.state dumps.old) (D.state dumps.new)
        (2 * bodies_length (heap_bodies pid.now (sections_in index.now))) }
    ensures fault { IfErr result (IsReadCauseOf (D.state dumps.old) (D.state dumps.new)) }
    ensures count { IfOk result (λ texts. length texts.labels ≡ length keys.now) }
    ensures parts_count { IfOk result (λ texts. length texts.shapes ≡ length parts.now) }
    ensures labels { IfOk result (λ texts. IfTold (D.state dumps.old).now
        (λ dump. texts.labels ≡ key_shapes dump index.now pid.now keys.now)) }
    ensures shapes { IfOk result (λ texts. IfTold (D.state dumps.old).now
        (λ dump. texts.shapes ≡ part_shapes dump index.now pid.now parts.now)) }
{
    skeleton.leads_are_cells();
    let Wanted { cells, most } = wanted_of(alloc, keys, parts)?;
    let firsts = Tuples::load(alloc, dumps, index, pid, skeleton, cells, most)?;
    let others = tuples_of(alloc, skeleton, keys, parts)?;
    let tuples = Tuples::load(alloc, dumps, index, pid, skeleton, others, MOST_ELEMENTS)?;
    let texts = texts_of(alloc, skeleton, &firsts, &tuples, keys, parts)?;
    Ok(texts)
}

/// Returns the shapes of keys, as [`read_shapes`] does. What is read and the faults are those of it, where no parts are
/// given.
pub fn key_shapes<D: Dumps>(
    alloc: Global,
    dumps: &mut D,
    index: &Index,
    pid: &[u8],
    skeleton: &Skeleton,
    keys: &[KeyPlace],
) -> Result<Texts, ReadFault>
    requires over { IsBuiltOver (D.state dumps.old).now index.now }
    requires keys { AreKeysWithin (length skeleton.now.leads) keys.now }
    requires skeleton { IfTold (D.state dumps.old).now
        (λ dump. skeleton.now ≡ skeleton_for dump index.now pid.now) }
    ensures reads { ReadsAtMost (D.state dumps.old) (D.state dumps.new)
        (2 * bodies_length (heap_bodies pid.now (sections_in index.now))) }
    ensures fault { IfErr result (IsReadCauseOf (D.state dumps.old) (D.state dumps.new)) }
    ensures count { IfOk result (λ shapes. length shapes ≡ length keys.now) }
    ensures shapes { IfOk result (λ shapes. IfTold (D.state dumps.old).now
        (λ dump. shapes ≡ key_shapes dump index.now pid.now keys.now)) }
{
    let texts = read_shapes(alloc, dumps, index, pid, skeleton, keys, &[])?;
    Ok(texts.labels)
}

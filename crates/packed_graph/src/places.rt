//! Places of labels among the different labels of a list of nodes.
//!
//! The same types follow one another in the same order in each unit of a program, so the label that
//! follows a label is nearly always the one that followed it the last time. It is compared first,
//! then the last label that has the same mark, which is some of its bytes; only another one is
//! hashed and looked up. No clause rests on a hint.
ghost use Rattle.std.specs.Prelude.{◌≡◌, Some, IfOk, IfSome, OnErr, slice_get};
ghost use Rattle.c_model.specs.Numberings.{TakesKey};

use crate::label_key::{LabelKey, LabelSet};
use c_model::{Label, is_same_label};
use std::alloc::{AllocError, Global};

/// How many bits a mark has.
const MARK_BITS: u32 = 16;

/// A factor of marks: odd, and without a pattern in its bits.
const FACTOR: u64 = 5_871_781_006_564_002_453;

/// Which label may be next: `after` holds, for the place of each label, the place of the one that
/// followed it the last time; `last` is the place of the label that came last. `marked` holds, for
/// each mark, the place of a label that has it; it is empty until a label is looked up.
#[derive(Drop)]
pub struct Hints {
    after: Vec<u32>,
    last: u32,
    marked: Vec<u32>,
}

impl Hints {
    /// No hints.
    pub fn new(alloc: Global) -> Hints {
        Hints {
            after: Vec::new(alloc),
            last: 0,
            marked: Vec::new(alloc),
        }
    }

    /// The place at which the next label may stand.
    #[inline(always)]
    fn guess(&self) -> Option<u32> {
        self.after.get(self.last as usize).copied()
    }

    /// The place at which a label of this mark may stand.
    #[inline(always)]
    fn guess_by(&self, mark: usize) -> Option<u32> {
        self.marked.get(mark).copied()
    }

    /// Notes that the label at this place came next. Where memory is wanting, the hint is left out.
    #[inline(always)]
    pub fn note(&mut self, place: u32) {
        let last = self.last as usize;
        match self.after.get_mut(last) {
            Some(hint) => *hint = place,
            None => {
                let _ = self.after.resize(last + 1, place);
            }
        }
        self.last = place;
    }

    /// Notes that a label of this mark stands at this place. Where memory is wanting, the hint is
    /// left out.
    fn note_mark(&mut self, mark: usize, place: usize) {
        let Ok(place) = u32::try_from(place) else {
            return;
        };
        if self.marked.is_empty() && self.marked.resize(1 << MARK_BITS, 0).is_err() {
            return;
        }
        if let Some(hint) = self.marked.get_mut(mark) {
            *hint = place;
        }
    }
}

/// Two numbers mixed.
#[inline(always)]
fn mix(mark: u64, number: u64) -> u64 {
    mark.wrapping_mul(FACTOR).wrapping_add(number)
}

/// A byte of a name, 0 where it has none there.
#[inline(always)]
fn byte_at(name: &[u8], at: usize) -> u64 {
    match name.get(at) {
        Some(byte) => u64::from(*byte),
        None => 0,
    }
}

/// A mark with a name's length and five of its bytes.
#[inline(always)]
fn mix_name(mark: u64, name: &[u8]) -> u64 {
    let len = name.len();
    let quarter = len / 4;
    let ends = byte_at(name, 0) << 8 | byte_at(name, len.saturating_sub(1));
    let within = byte_at(name, quarter) << 16
        | byte_at(name, len / 2) << 8
        | byte_at(name, len / 2 + quarter);
    mix(mix(mark, len as u64), ends << 24 | within)
}

/// The mark of a label: some of what it holds, mixed. Labels that are not equal may have one mark.
fn mark_of(label: &Label<'_>) -> usize {
    let parts = label.parts.items();
    let kind = u64::from(label.kind) << 1 | u64::from(label.flag);
    let sizes = u64::from(label.size) << 32 | u64::from(label.extra);
    let mut mark = mix(mix(kind, sizes), parts.len() as u64);
    mark = mix_name(mark, label.name.bytes());
    if let (Some(first), Some(last)) = (parts.first(), parts.last()) {
        mark = mix_name(mix(mark, first.value), first.name.bytes());
        mark = mix_name(mix(mark, last.value), last.name.bytes());
    }
    (mark.wrapping_mul(FACTOR) >> (64 - MARK_BITS)) as usize
}

/// The place of a label by a look-up. One that is not there goes last.
pub fn place_of<'a>(labels: &mut LabelSet<'a>, label: Label<'a>) -> Result<usize, AllocError>
    ensures place { IfOk result (λ r. TakesKey labels.old.keys label.entry labels.new.keys r) }
    ensures err { OnErr result (labels.new.keys ≡ labels.old.keys) }
{
    let (place, _) = labels.insert_full(LabelKey::new(label))?;
    Ok(place)
}

/// The place that a hint tells, if this label stands there.
#[inline(always)]
fn hinted<'a>(labels: &LabelSet<'a>, hint: Option<u32>, label: &Label<'a>) -> Option<usize>
    ensures { IfSome result (λ r. slice_get labels.now.keys r ≡ Some label.now) }
{
    let place = hint? as usize;
    let key = labels.get_index(place)?;
    if is_same_label(key.label(), label) {
        Some(place)
    } else {
        None
    }
}

/// The place of a label. One that is not there goes last. It is looked up only where it stands
/// neither where the label before tells, nor where its own mark does.
pub fn place_by_hints<'a>(
    labels: &mut LabelSet<'a>,
    hints: &mut Hints,
    label: Label<'a>,
) -> Result<usize, AllocError>
    ensures place { IfOk result (λ r. TakesKey labels.old.keys label.entry labels.new.keys r) }
    ensures err { OnErr result (labels.new.keys ≡ labels.old.keys) }
{
    if let Some(place) = hinted(labels, hints.guess(), &label) {
        return Ok(place);
    }
    let mark = mark_of(&label);
    if let Some(place) = hinted(labels, hints.guess_by(mark), &label) {
        return Ok(place);
    }
    let place = place_of(labels, label)?;
    hints.note_mark(mark, place);
    Ok(place)
}

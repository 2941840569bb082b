// The open objects as the reader holds them: the frame of the innermost one is the reader's `top`, the frames around it lie in a lent
// array of words, six to a frame, the outermost one first. An object is opened, its slots are filled, full objects are closed.
#![tactic(auto)]

ghost use Rattle.std.specs.Prelude.{◌≡◌, ◌∷◌, ◌+◌, ◌-◌, ◌≤◌, ◌<◌, length};
ghost use Rattle.format.specs.Machine.{close, filled_by, filled, opened};
ghost use Rattle.frames.specs.Frames.{frame_at, saved, open_of, Holds, Deeper};

use format::{Frame, Head, Reader, Typed};

// ---- the saved frames

// The frame is saved at index d; the frames below it stay.
pub fn save(frames: &mut [u32; Reader::WORDS], d: usize, g: Frame)
    requires { (d < 64) × (length frames.old ≡ 384) }
    ensures { (length frames.new ≡ 384) × (saved frames.new (d + 1) ≡ g ∷ saved frames.old d) }
{
    let t = g.typed;
    let slot = t.slot;
    let code = slot_words::slot_code(slot);
    let b = 6 * d;
    frames[b] = g.owner;
    frames[b + 1] = g.count;
    frames[b + 2] = g.left;
    frames[b + 3] = code;
    frames[b + 4] = t.types;
    frames[b + 5] = t.infos;
}

// The frame saved at index d.
pub fn frame_at(frames: &[u32; Reader::WORDS], d: usize) -> Frame
    requires { (d < 64) × (length frames.now ≡ 384) }
    ensures { result ≡ frame_at frames.now d }
{
    let b = 6 * d;
    let slot = slot_words::slot_from(frames[b + 3]);
    let typed = Typed {
        slot,
        types: frames[b + 4],
        infos: frames[b + 5],
    };
    Frame {
        owner: frames[b],
        count: frames[b + 1],
        left: frames[b + 2],
        typed,
    }
}

// Objects that are full are closed.
pub fn settle(frames: &[u32; Reader::WORDS], m: Reader) -> Reader
    requires { (m.depth ≤ 64) × (length frames.now ≡ 384) }
    ensures { Holds frames.now m result (close m.top (saved frames.now m.depth)) }
{
    let mut depth = m.depth;
    let mut top = m.top;
    // How many are full is found one by one, so no range counts them.
    while depth != 0 && top.left == 0 {
        depth -= 1;
        top = frame_at(frames, depth);
    }
    Reader { depth, top, ..m }
}

// The reader after k slots of the innermost object, with the type t for the next one; full objects are not closed.
fn passed(m: Reader, k: u32, t: Typed) -> Reader
    ensures { result ≡ record { at = m.at; rows = m.rows; depth = m.depth; top = filled_by m.top k t } }
{
    let left = slot_words::less(m.top.left, k);
    Reader {
        top: Frame {
            left,
            typed: t,
            ..m.top
        },
        ..m
    }
}

// k slots of the innermost object are filled; the next one has the type t.
pub fn fill(frames: &[u32; Reader::WORDS], m: Reader, k: u32, t: Typed) -> Reader
    requires { (m.depth ≤ 64) × (length frames.now ≡ 384) }
    ensures { Holds frames.now m result (filled (open_of frames.now m) k t) }
{
    let n = passed(m, k, t);
    settle(frames, n)
}

// The same, for a record that mostly leaves its object open: that way stays in registers, and what is lent to `fill` are copies of its own.
pub fn fill_soon(frames: &[u32; Reader::WORDS], m: Reader, k: u32, t: Typed) -> Reader
    requires { (m.depth ≤ 64) × (length frames.now ≡ 384) }
    ensures { Holds frames.now m result (filled (open_of frames.now m) k t) }
{
    if k < m.top.left {
        return passed(m, k, t);
    }
    let n = m;
    let u = t;
    let r = fill(frames, n, k, u);
    r
}

// An object is opened in the next slot; the slot after it has the type t. `row` is the number of its row plus 1.
pub fn open_object(
    frames: &mut [u32; Reader::WORDS],
    m: Reader,
    row: u32,
    h: Head,
    t: Typed,
) -> Reader
    requires { (m.depth < 64) × (length frames.old ≡ 384) }
    ensures { Deeper frames.new m result (opened (open_of frames.old m) row h t) }
{
    let left = slot_words::less(m.top.left, 1);
    save(
        frames,
        m.depth,
        Frame {
            left,
            typed: t,
            ..m.top
        },
    );
    Reader {
        depth: m.depth + 1,
        top: Frame {
            owner: row,
            count: h.slots,
            left: h.slots,
            typed: h.first,
        },
        ..m
    }
}

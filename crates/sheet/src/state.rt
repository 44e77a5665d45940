// The state of judging a page: what is known of it behind some of its tags, in a few numbers.
ghost use Rattle.std.specs.Prelude.{◌≡◌, false, ◌&&◌, ◌||◌, List, suc, ◌≤◌, ◌<◌, eqb, leb};
ghost use Rattle.paper.specs.Lists.{if};
ghost use Rattle.paper.specs.Causes.{cause_number, flaw_number};
ghost use Rattle.paper.specs.Fields.{code, rank_of, fields_of};
ghost use Rattle.paper.specs.Grammar.{Attr};
ghost use Rattle.paper.specs.Judging.{names, slots_of, lower};
ghost use Rattle.fields.specs.Places.{kind_at, kind_count};
ghost use Rattle.sheet.specs.Fold.{outside, kind_under, parent, barred, given, flaw, needs_w, opened, closed, finished};
ghost use Rattle.sheet.specs.Judged.{fault_of, st_of, Sound, left};

use fields::lookup::child;
use fields::places::{A, M, MP, O, P, S, W};
use paper::Cause;

// Outside of all elements, as the table of fields counts.
const OUTERMOST: u8 = 10;

// A refusal of a page: its cause and its place.
#[derive(Clone, Copy, PartialEq, Eq)]
pub struct Refusal {
    pub cause: Cause,
    pub place: u16,
}

// What is known of a page behind some of its tags.
#[derive(Clone, Copy, PartialEq, Eq)]
pub struct State {
    // The innermost open element, 0 if none is open.
    pub cur: u8,
    // The latest element in MP: 0 none, 1 P, 2 A, 3 O, 4 S.
    pub rank: u8,
    // Whether a P and an A have come.
    pub person: bool,
    pub author: bool,
    // How many W the open M has.
    pub ws: u8,
    // Whether the open M has no p, no a and no W so far.
    pub waits: bool,
    // The place of the latest M, and that of MP.
    pub from: u16,
    pub root: u16,
    // The least refusal so far.
    pub best: Option<Refusal>,
}

// The least refusal where one of that cause at that place joins those so far: the lowest number, and the lowest place within one number.
fn least(best: Option<Refusal>, cause: Cause, place: u16) -> Option<Refusal>
    ensures { fault_of result ≡ lower (fault_of best) (given (cause_number cause) place) }
{
    match best {
        Some(f) if f.cause.number() < cause.number() || (f.cause == cause && f.place <= place) =>
            best,
        _ => Some(Refusal { cause, place }),
    }
}

// The state before the first tag.
pub fn before() -> State
    ensures { (st_of result ≡ outside) × Sound result }
{
    State {
        cur: 0,
        rank: 0,
        person: false,
        author: false,
        ws: 0,
        waits: false,
        from: 0,
        root: 0,
        best: None,
    }
}

// The element of a name where `cur` is the innermost open one, 0 if it may not stand there.
#[tactic(auto, using(crate::proofs::StateLaws::kids_under, crate::proofs::StateLaws::kids_outside))]
pub fn kind_under(cur: u8, name: &[u8]) -> u8
    requires { cur < 10 }
    ensures { (result ≡ code (kind_under cur name.now)) × (result < 10) }
{
    child(if cur == 0 { OUTERMOST } else { cur }, name)
}

// Whether an element is unknown, misplaced or one too many.
#[tactic(auto, using(crate::proofs::StateLaws::barred_number))]
pub fn bars(st: State, kind: u8) -> bool
    requires { kind < kind_count }
    ensures { result ≡ barred (st_of st) (kind_at kind) }
{
    match kind {
        0 => true,
        P => st.rank >= 1,
        A => st.rank >= 2,
        O => st.rank >= 3,
        W => st.ws >= 3,
        _ => false,
    }
}

// The latest element in MP behind the start tag of an element.
#[tactic(auto, using(crate::proofs::StateLaws::rank_number))]
fn rank_with(rank: u8, kind: u8) -> u8
    requires { kind < kind_count }
    ensures { result ≡ if (eqb (rank_of (kind_at kind)) 0) rank (rank_of (kind_at kind)) }
{
    match kind {
        P..=S => kind - 1,
        _ => rank,
    }
}

// How many W the open M has behind the start tag of an element.
fn ws_with(ws: u8, kind: u8) -> u8
    requires { (ws ≤ 3) × (kind ≡ 7 → ws < 3) }
    ensures { (result ≡ if (eqb kind 6) 0 (if (eqb kind 7) (suc ws) ws)) × (result ≤ 3) }
{
    match kind {
        M => 0,
        W => ws + 1,
        _ => ws,
    }
}

// The state behind the start tag of an element that may stand there, with the refusal that its own values give, if any, and whether it needs a W.
#[tactic(auto, using(crate::proofs::StateLaws::fourth, crate::proofs::StateLaws::best_none, fields::proofs::TableLaws::code_back), unfolding(crate::specs::Fold::opened))]
fn open(st: State, kind: u8, place: u16, cause: Option<Cause>, needs: bool) -> State
    requires { (kind < kind_count) × Sound st × (barred (st_of st) (kind_at kind) ≡ false) }
    ensures { ((l : List Attr) → flaw_number cause ≡ flaw (kind_at kind) (names l) (slots_of (fields_of (kind_at kind)) l)
        → needs ≡ needs_w (kind_at kind) (slots_of (fields_of (kind_at kind)) l) → st_of result ≡ opened (st_of st) (kind_at kind) place l) × Sound result }
{
    let best = match cause {
        Some(cause) => least(st.best, cause, place),
        None => st.best,
    };
    State {
        cur: kind,
        rank: rank_with(st.rank, kind),
        person: kind == P || st.person,
        author: kind == A || st.author,
        ws: ws_with(st.ws, kind),
        waits: needs,
        from: if kind == M { place } else { st.from },
        root: if kind == MP { place } else { st.root },
        best,
    }
}

// The element around an element.
#[tactic(auto, using(crate::proofs::StateLaws::parent_number))]
fn parent_of(kind: u8) -> u8
    requires { kind < kind_count }
    ensures { (result ≡ parent kind) × (result < 10) }
{
    match kind {
        0..=MP => 0,
        P..=S => MP,
        W => M,
        _ => S,
    }
}

// The least refusal behind an end tag: an M that still waits for a W is refused with 8.
#[tactic(auto, unfolding(crate::specs::Fold::closed))]
fn best_behind(st: State) -> Option<Refusal>
    ensures { fault_of result ≡ (closed (st_of st)).best }
{
    if st.waits {
        return least(st.best, Cause::Incomplete, st.from);
    }
    st.best
}

// The state behind an end tag.
#[tactic(auto, unfolding(crate::specs::Fold::closed))]
pub fn close(st: State) -> State
    requires { Sound st }
    ensures { (st_of result ≡ closed (st_of st)) × Sound result }
{
    State {
        cur: parent_of(st.cur),
        waits: false,
        best: best_behind(st),
        ..st
    }
}

// The state behind a start tag, and behind the element's end if the tag closes itself, with the refusal that the element's own values give, if any.
pub fn enter_for(
    st: State,
    kind: u8,
    place: u16,
    cause: Option<Cause>,
    needs: bool,
    shut: bool,
) -> State
    requires { (kind < kind_count) × Sound st × (barred (st_of st) (kind_at kind) ≡ false) }
    ensures { ((l : List Attr) → flaw_number cause ≡ flaw (kind_at kind) (names l) (slots_of (fields_of (kind_at kind)) l)
        → needs ≡ needs_w (kind_at kind) (slots_of (fields_of (kind_at kind)) l) → st_of result ≡ left shut (opened (st_of st) (kind_at kind) place l)) × Sound result }
{
    let inner = open(st, kind, place, cause, needs);
    if shut { close(inner) } else { inner }
}

// The cause that a page's refusal of a number has, none for any other number.
fn cause_of(number: u8) -> Option<Cause>
    ensures { flaw_number result ≡ if (leb 2 number && leb number 8) number 9 }
{
    match number {
        2 => Some(Cause::Size),
        3 => Some(Cause::Byte),
        4 => Some(Cause::Malformed),
        5 => Some(Cause::OutOfPlace),
        6 => Some(Cause::Edition),
        7 => Some(Cause::Value),
        8 => Some(Cause::Incomplete),
        _ => None,
    }
}

// The same by the number of that refusal, 9 if there is none.
#[tactic(auto, using(crate::proofs::StateLaws::flaw_caused))]
pub fn enter(st: State, kind: u8, place: u16, number: u8, needs: bool, shut: bool) -> State
    requires { (kind < kind_count) × Sound st × (barred (st_of st) (kind_at kind) ≡ false) }
    ensures { ((l : List Attr) → number ≡ flaw (kind_at kind) (names l) (slots_of (fields_of (kind_at kind)) l)
        → needs ≡ needs_w (kind_at kind) (slots_of (fields_of (kind_at kind)) l) → st_of result ≡ left shut (opened (st_of st) (kind_at kind) place l)) × Sound result }
{
    enter_for(st, kind, place, cause_of(number), needs, shut)
}

// The least refusal of the page, at its end, if there is one: 8 at MP if P or A is missing.
#[tactic(auto, unfolding(crate::specs::Fold::finished))]
pub fn finish(st: State) -> Option<Refusal>
    ensures { fault_of result ≡ finished (st_of st) }
{
    if st.person && st.author {
        return st.best;
    }
    least(st.best, Cause::Incomplete, st.root)
}

// A page added to a collector: judged, compared with its first page, and kept at its number's place.
ghost use Rattle.std.specs.Prelude.{◌≡◌, length};
ghost use Rattle.paper.specs.Judging.{judge};
ghost use Rattle.paper.specs.Calls.{page_room};
ghost use Rattle.markup.specs.Walk.{tags_at};
ghost use Rattle.sheet.specs.Content.{content_of};
ghost use Rattle.tape.specs.Making.{IsSheet};
ghost use Rattle.collector.specs.Keeping.{agrees_with, agrees_first, first_with, taken_in, added_to, added_call};
ghost use Rattle.collector.specs.Promise.{Promised};

use crate::store::{Collector, Slot, page_at};
use reader::alone::{belong, numbers_of};
use reader::answer::Refusal;
use room::{lay, lies_in, spells};
use sheet::judge::judge_page;

// What is done with a page that is not refused.
#[derive(Clone, Copy, PartialEq, Eq)]
pub enum Kept {
    // The page is kept.
    Added,
    // The page is here already, with the same bytes.
    AlreadyHere,
}

// What is answered to a page: a refusal calls it page 1.
pub type Answer = Result<Kept, Refusal>;

// The answer, and the collector afterwards.
#[derive(Clone, Copy)]
pub struct Adding {
    pub answer: Answer,
    pub collector: Collector,
}

// The answer to a page that is not added: the collector is as it was.
fn unchanged(c: Collector, answer: Answer) -> Adding
    ensures { (result.answer ≡ answer) × (result.collector ≡ c) }
{
    Adding {
        answer,
        collector: c,
    }
}

// Whether a page without faults has the head and the count of another page; it has not, where that page has faults.
fn agrees<'a>(first: &'a [u8], page: &'a [u8]) -> bool
    requires { IsSheet page.now }
    ensures { result ≡ agrees_with (content_of (tags_at page.now 0)) (judge first.now) }
{
    let mut scratch = [0u8; Collector::PAGE];
    match judge_page(first, &mut scratch) {
        Ok(()) => belong(first, page),
        Err(_) => false,
    }
}

// Whether a page has the head and the count of the collector's first page, or there is none yet.
fn agrees_first<'a>(pages: &'a [u8], lens: [u16; 9], first: u8, page: &'a [u8]) -> bool
    requires { (length pages.now ≡ page_room) × IsSheet page.now }
    ensures { result ≡ agrees_first pages.now lens first (content_of (tags_at page.now 0)) }
{
    match page_at(lens, first) {
        Some(at) => agrees(&pages[at.start..at.start + at.len], page),
        None => true,
    }
}

// The number of the page that came first, once the page of number n is kept.
#[tactic(auto, unfolding(crate::specs::Keeping::first_with, crate::specs::Keeping::page_at))]
fn first_with(lens: [u16; 9], first: u8, n: u8) -> u8
    ensures { result ≡ first_with lens first n }
{
    match page_at(lens, first) {
        Some(_) => first,
        None => n,
    }
}

// A page without faults: refused with 9 against the first page, already here, refused with 10, or kept.
fn take_in(c: Collector, page: &[u8]) -> Adding
    requires { IsSheet page.now }
    ensures { Promised (taken_in c page.now (content_of (tags_at page.now 0))) result.answer result.collector }
{
    let mut pages = c.pages;
    let mut lens = c.lens;
    if !agrees_first(&pages, lens, c.first, page) {
        return unchanged(c, Err(Refusal::OtherHead(1)));
    }
    let said = numbers_of(page);
    if let Some(at) = page_at(lens, said.no) {
        if spells(&pages, at.start, at.start + at.len, page) {
            return unchanged(c, Ok(Kept::AlreadyHere));
        }
        return unchanged(c, Err(Refusal::NumberTwice(1)));
    }
    let first = first_with(lens, c.first, said.no);
    let i = said.no as usize - 1;
    lay(&mut pages, i * Collector::PAGE, page);
    lens[i] = page.len() as u16;
    Adding {
        answer: Ok(Kept::Added),
        collector: Collector {
            pages,
            lens,
            z: said.of,
            first,
        },
    }
}

// Any bytes as a page: refused with 2 to 8 as judging says, else taken in.
pub fn add_bytes(c: Collector, page: &[u8]) -> Adding
    ensures { Promised (added_to c page.now) result.answer result.collector }
{
    let mut scratch = [0u8; Collector::PAGE];
    match judge_page(page, &mut scratch) {
        Ok(()) => take_in(c, page),
        Err(fault) => unchanged(c, Err(Refusal::of_page(fault.cause, 1, fault.place as u32))),
    }
}

// Adds a page of the buffer, from `start` on, `len` bytes long: added, already here, or refused with 1 (the page lies outside the buffer), 2 to 8, 9 or 10.
// Only where it is added does the collector change.
pub fn add(c: Collector, buffer: &[u8], start: usize, len: usize) -> Adding
    ensures { Promised (added_call c buffer.now start len) result.answer result.collector }
{
    if !lies_in(buffer.len(), start, len) {
        return unchanged(c, Err(Refusal::NoRoom));
    }
    add_bytes(c, &buffer[start..start + len])
}

// The same of a collector that is lent: it is then as `add` leaves it.
pub fn add_page(c: &mut Collector, buffer: &[u8], start: usize, len: usize) -> Answer
    ensures { Promised (added_call c.old buffer.now start len) result c.new }
{
    let r = add(*c, buffer, start, len);
    *c = r.collector;
    r.answer
}

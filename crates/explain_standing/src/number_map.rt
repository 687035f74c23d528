//! Numbers by places: which line took a doubleword or a cell last, and which task was current before a line.
ghost use Rattle.std.specs.Prelude.{◌≡◌, ◌+◌, ◌^◌, ◌<◌, ◌≤◌, ℕ, IfOk, None, OnOk, if◌then◌else◌, nat_le, nat_lt, Some};
ghost use Rattle.std.specs.Prelude.{◌&&◌, ◌==◌, length, slice_get, vec_len};
ghost use Rattle.vsm_model.specs.Search.{all_pass};
ghost use Rattle.explain_standing.specs.NumberMaps.{joined, number_in, on_page, page_number};
ghost use Rattle.explain_standing.specs.NumberMaps.{is_of_one, same_number};

use std::alloc::{AllocError, Global};
use std::mem;

/// The places of a page.
const PAGE: usize = 512;

/// The numbers at the places of a page.
#[derive(Drop)]
enum PageNumbers {
    /// The same number at all of them, or none.
    One(Option<u32>),
    /// The number at each, as far as there is one.
    Each(Vec<Option<u32>>),
}

/// A number at each of some places, by pages of places.
#[derive(Drop)]
pub struct NumberMap {
    pages: Vec<PageNumbers>,
}

/// A number is put at the places from one up to another.
fn set_numbers(numbers: &mut [Option<u32>], from: usize, to: usize, number: u32)
    requires order { from ≤ to }
    requires within { to ≤ length numbers.old }
    ensures { (d : ℕ) → slice_get numbers.new d
        ≡ (if nat_le from d && nat_lt d to then Some (Some number) else slice_get numbers.old d) }
{
    for d in from..to {
        numbers[d] = Some(number);
    }
}

/// The number at each place of a page, with room for all of them.
fn opened(alloc: Global, page: PageNumbers) -> Result<Vec<Option<u32>>, AllocError>
    ensures room { IfOk result (λ numbers. 512 ≤ vec_len numbers) }
    ensures same { IfOk result (λ numbers. (d : ℕ) → d < 512 → joined (slice_get numbers.items d) ≡ on_page page d) }
{
    match page {
        PageNumbers::One(number) => {
            let mut numbers = Vec::new(alloc);
            numbers.resize(PAGE, number)?;
            Ok(numbers)
        }
        PageNumbers::Each(numbers) => {
            let mut numbers = numbers;
            if numbers.len() < PAGE {
                numbers.resize(PAGE, None)?;
            }
            Ok(numbers)
        }
    }
}

/// A number is put at the places of a page from one up to another.
fn take_in(
    page: &mut PageNumbers,
    alloc: Global,
    from: usize,
    to: usize,
    number: u32,
) -> Result<(), AllocError>
    requires order { from ≤ to }
    requires within { to ≤ 512 }
    ensures { OnOk result ((d : ℕ) → d < 512 → on_page page.new d
        ≡ (if nat_le from d && nat_lt d to then Some number else on_page page.old d)) }
{
    if to - from == PAGE {
        *page = PageNumbers::One(Some(number));
        return Ok(());
    }
    let mut numbers = opened(alloc, mem::replace(page, PageNumbers::One(None)))?;
    set_numbers(&mut numbers, from, to, number);
    *page = PageNumbers::Each(numbers);
    Ok(())
}

/// Whether both are the same number, or neither is one.
fn is_same(a: Option<u32>, b: Option<u32>) -> bool
    ensures { result ≡ same_number a b }
{
    match (a, b) {
        (None, None) => true,
        (Some(a), Some(b)) => a == b,
        (None, Some(_)) | (Some(_), None) => false,
    }
}

/// The number at a place of those from a page's first on.
fn number_among(numbers: &[Option<u32>], place: usize) -> Option<u32>
    ensures { result ≡ joined (slice_get numbers.now place) }
{
    *numbers.get(place)?
}

/// The number at a place of a page.
fn number_on(page: &PageNumbers, place: usize) -> Option<u32>
    ensures { result ≡ on_page page.now place }
{
    match page {
        PageNumbers::One(number) => *number,
        PageNumbers::Each(numbers) => number_among(numbers, place),
    }
}

/// Whether this many places from one on, of those from a page's first on, have a number.
fn are_of(numbers: &[Option<u32>], from: usize, count: usize, number: Option<u32>) -> bool
    requires { from + count ≤ 512 }
    ensures { result ≡ all_pass (λ d. same_number number (joined (slice_get numbers.now d))) from count }
{
    for d in from..from + count {
        if !is_same(number, number_among(numbers, d)) {
            return false;
        }
    }
    true
}

/// Whether this many places of a page from one on have a number.
fn is_run_of(page: &PageNumbers, from: usize, count: usize, number: Option<u32>) -> bool
    requires some { 0 < count }
    requires within { from + count ≤ 512 }
    ensures { result ≡ all_pass (λ d. same_number number (on_page page.now d)) from count }
{
    match page {
        PageNumbers::One(its) => is_same(number, *its),
        PageNumbers::Each(numbers) => are_of(numbers, from, count, number),
    }
}

/// An end, a limit at most, up to which places have the number of the one that they begin with.
fn run_end(numbers: &[Option<u32>], from: usize, limit: usize) -> usize
    requires { from < limit }
    ensures same { (d : ℕ) → from ≤ d → d < result
        → joined (slice_get numbers.now d) ≡ joined (slice_get numbers.now from) }
    ensures on { from < result }
    ensures within { result ≤ limit }
{
    let number = number_among(numbers, from);
    let mut at = from + 1;
    while at < limit && is_same(number, number_among(numbers, at)) {
        at += 1;
    }
    at
}

impl NumberMap {
    /// No place has a number. Takes no memory.
    pub fn new(alloc: Global) -> NumberMap
        ensures { (d : ℕ) → number_in result d ≡ None }
    {
        NumberMap {
            pages: Vec::new(alloc),
        }
    }

    /// The number at a place, if there is one.
    pub fn number(&self, place: u32) -> Option<u32>
        ensures { result ≡ number_in self.now place }
    {
        let at = place as usize;
        let page = self.pages.get(at / PAGE)?;
        number_on(page, at % PAGE)
    }

    /// Makes room for a number of pages.
    fn lengthen(&mut self, count: usize) -> Result<(), AllocError>
        ensures room { OnOk result (count ≤ vec_len self.new.pages) }
        ensures same { OnOk result ((k d : ℕ) → page_number self.new k d ≡ page_number self.old k d) }
    {
        while self.pages.len() < count {
            self.pages.push(PageNumbers::One(None))?;
        }
        Ok(())
    }

    /// A number is put at the places of a page from one up to another.
    fn take_page(
        &mut self,
        alloc: Global,
        page: u32,
        from: usize,
        to: usize,
        number: u32,
    ) -> Result<(), AllocError>
        requires order { from ≤ to }
        requires within { to ≤ 512 }
        ensures { OnOk result ((k d : ℕ) → d < 512 → page_number self.new k d
            ≡ (if k == page && (nat_le from d && nat_lt d to) then Some number else page_number self.old k d)) }
    {
        let page = page as usize;
        self.lengthen(page + 1)?;
        take_in(&mut self.pages[page], alloc, from, to, number)
    }

    /// A number is put at this many places from the first on. `AllocError` if memory runs out; what the map has then
    /// means nothing.
    pub fn take(
        &mut self,
        alloc: Global,
        first: u32,
        count: u32,
        number: u32,
    ) -> Result<(), AllocError>
        ensures { OnOk result ((d : ℕ) → d < 2 ^ 32 → number_in self.new d
            ≡ (if nat_le first d && nat_lt d (first + count) then Some number else number_in self.old d)) }
    {
        let mut at = first as usize;
        let end = at + count as usize;
        while at < end {
            let page = at / PAGE;
            let to = end.min(PAGE * (page + 1));
            self.take_page(
                alloc,
                page as u32,
                at - PAGE * page,
                to - PAGE * page,
                number,
            )?;
            at = to;
        }
        Ok(())
    }

    /// The number at a place, and an end up to which it's the same from there on: a limit at most.
    pub fn run_from(&self, at: u32, limit: u32) -> (Option<u32>, u32)
        requires { at < limit }
        ensures number { result.0 ≡ number_in self.now at }
        ensures same { (d : ℕ) → at ≤ d → d < result.1 → number_in self.now d ≡ result.0 }
        ensures on { at < result.1 }
        ensures within { result.1 ≤ limit }
    {
        let first = at as usize / PAGE * PAGE;
        let end = (first + PAGE).min(limit as usize);
        match self.pages.get(at as usize / PAGE) {
            None => (None, end as u32),
            Some(PageNumbers::One(number)) => (*number, end as u32),
            Some(PageNumbers::Each(numbers)) => {
                let from = at as usize - first;
                let to = first + run_end(numbers, from, end - first);
                (number_among(numbers, from), to as u32)
            }
        }
    }

    /// Whether this many places of a page from one on have a number.
    fn is_page_of(&self, page: usize, from: usize, count: usize, number: Option<u32>) -> bool
        requires some { 0 < count }
        requires within { from + count ≤ 512 }
        ensures { result ≡ all_pass (λ d. same_number number (page_number self.now page d)) from count }
    {
        match self.pages.get(page) {
            Some(numbers) => is_run_of(numbers, from, count, number),
            None => is_same(number, None),
        }
    }

    /// Whether this many places from the first on have the first one's number, or none has one.
    pub fn is_of_one(&self, first: u32, count: u32) -> bool
        ensures { result ≡ is_of_one (number_in self.now) first count }
    {
        let number = self.number(first);
        let mut at = first as usize;
        let end = at + count as usize;
        while at < end {
            let page = at / PAGE;
            let to = end.min(PAGE * (page + 1));
            if !self.is_page_of(page, at - PAGE * page, to - at, number) {
                return false;
            }
            at = to;
        }
        true
    }
}

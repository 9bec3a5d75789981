//! Bits of words.

ghost use Rattle.std.specs.Prelude.{◌≡◌, ◌≢◌, ◌<◌, ◌≤◌, ◌+◌, ◌-◌, ◌*◌, ◌/◌, ◌||◌, ◌&&◌, ℕ, true, false, length, min, slice_index, slice_index_or, All};
ghost use Rattle.moved_set.specs.Words.{has, has_bit, hits, names};
ghost use Rattle.moved_set.specs.Pages.{AreMarked};
ghost use Rattle.moved_set.specs.Asked.{IsFirst, IsLast, IsLeastAt, IsGreatestAt};

use crate::mask::Mask;

/// A page has so many words. A sweep passes at once over a page in which no bit is 1.
const PAGE: usize = 64;

/// The first number from `from` on whose bit is 1, or `count`.
#[inline(always)]
pub(crate) fn next_bit(words: &[u32], pages: &[bool], from: usize, count: usize) -> usize
    requires words { length words.now ≡ count / 32 + 1 }
    requires pages { length pages.now ≡ count / 2048 }
    requires marked { AreMarked words.now pages.now count }
    requires small { count < 281474976710656 }
    requires from { from ≤ count }
    ensures { IsFirst (has words.now) from count result }
{
    let first = from / 32;
    let bits = bits_from(words[first], from % 32);
    if bits != 0 {
        return least_at(bits, first, count);
    }
    let end = end_of_page(first / PAGE, words.len());
    let place = first_word(words, first + 1, end);
    if place < end {
        return least_at(words[place], place, count);
    }
    if end == words.len() {
        return count;
    }
    first_in_pages(words, pages, first / PAGE + 1, count)
}

/// The first number from a page on whose bit is 1, or `count`.
#[inline(never)]
fn first_in_pages(words: &[u32], pages: &[bool], from: usize, count: usize) -> usize
    requires words { length words.now ≡ count / 32 + 1 }
    requires pages { length pages.now ≡ count / 2048 }
    requires marked { AreMarked words.now pages.now count }
    requires small { count < 281474976710656 }
    requires from { from ≤ length pages.now }
    ensures { IsFirst (has words.now) (from * 2048) count result }
{
    for page in from..pages.len() {
        if pages[page] {
            let end = page * PAGE + PAGE;
            let place = first_word(words, page * PAGE, end);
            if place < end {
                return least_at(words[place], place, count);
            }
        }
    }
    let place = first_word(words, pages.len() * PAGE, words.len());
    if place < words.len() {
        return least_at(words[place], place, count);
    }
    count
}

/// The place behind the last number before `to` whose bit is 1, or 0.
#[inline(always)]
pub(crate) fn last_bit(words: &[u32], pages: &[bool], to: usize) -> usize
    requires to { to ≤ 32 * length words.now }
    requires pages { to ≤ 2048 * length pages.now + 2048 }
    requires marked { AreMarked words.now pages.now to }
    requires small { to < 281474976710656 }
    ensures { IsLast (has words.now) to result }
{
    if to == 0 {
        return 0;
    }
    let last = (to - 1) / 32;
    let bits = bits_upto(words[last], (to - 1) % 32);
    if bits != 0 {
        return greatest_at(bits, last);
    }
    let begin = last / PAGE * PAGE;
    let left = last_word(words, begin, last);
    if left > begin {
        return greatest_at(words[left - 1], left - 1);
    }
    if begin == 0 {
        return 0;
    }
    last_in_pages(words, pages, last / PAGE)
}

/// The place behind the last number before a page whose bit is 1, or 0.
#[inline(never)]
fn last_in_pages(words: &[u32], pages: &[bool], to: usize) -> usize
    requires words { to * 64 ≤ length words.now }
    requires pages { to ≤ length pages.now }
    requires marked { AreMarked words.now pages.now (to * 2048) }
    requires small { to < 137438953472 }
    ensures { IsLast (has words.now) (to * 2048) result }
{
    let mut left = to;
    while left > 0 {
        left -= 1;
        if pages[left] {
            let begin = left * PAGE;
            let behind = last_word(words, begin, begin + PAGE);
            if behind > begin {
                return greatest_at(words[behind - 1], behind - 1);
            }
        }
    }
    0
}

/// The place behind the words of a page, of which the last one may have fewer.
#[inline(always)]
fn end_of_page(page: usize, words: usize) -> usize
    requires { page < 137438953472 }
    ensures { result ≡ min (page * 64 + 64) words }
{
    (page * PAGE + PAGE).min(words)
}

/// The first place from `from` on and before `to` with a word that isn't 0, or `to`.
#[inline(always)]
fn first_word(words: &[u32], from: usize, to: usize) -> usize
    requires from { from ≤ to }
    requires to { to ≤ length words.now }
    ensures at_least { from ≤ result }
    ensures at_most { result ≤ to }
    ensures passed { (j : ℕ) → from * 32 ≤ j → j < result * 32 → has words.now j ≡ false }
    ensures found { result < to → slice_index words.now result ≢ 0 }
{
    for place in pass_over(words, from, to)..to {
        if words[place] != 0 {
            return place;
        }
    }
    to
}

/// The place behind the last word before `to` and from `from` on that isn't 0, or `from`.
#[inline(always)]
fn last_word(words: &[u32], from: usize, to: usize) -> usize
    requires from { from ≤ to }
    requires to { to ≤ length words.now }
    ensures at_least { from ≤ result }
    ensures at_most { result ≤ to }
    ensures passed { (j : ℕ) → result * 32 ≤ j → j < to * 32 → has words.now j ≡ false }
    ensures found { from < result → slice_index words.now (result - 1) ≢ 0 }
{
    let mut left = pass_back(words, from, to);
    while left > from {
        if words[left - 1] != 0 {
            return left;
        }
        left -= 1;
    }
    from
}

/// A place with only zeros before it from `from` on: `from` itself where few words are left.
#[inline(always)]
fn pass_over(words: &[u32], from: usize, to: usize) -> usize
    requires from { from ≤ to }
    requires to { to ≤ length words.now }
    ensures at_least { from ≤ result }
    ensures at_most { result ≤ to }
    ensures passed { (j : ℕ) → from * 32 ≤ j → j < result * 32 → has words.now j ≡ false }
{
    if to - from < 8 {
        return from;
    }
    pass_over_eights(words, from, to)
}

/// The same, at most seven words before the first word that isn't 0, or before `to`.
#[inline(never)]
fn pass_over_eights(words: &[u32], from: usize, to: usize) -> usize
    requires from { from ≤ to }
    requires to { to ≤ length words.now }
    ensures at_least { from ≤ result }
    ensures at_most { result ≤ to }
    ensures passed { (j : ℕ) → from * 32 ≤ j → j < result * 32 → has words.now j ≡ false }
{
    let mut place = from;
    while to - place >= 8 && are_eight_zeros(words, place) {
        place += 8;
    }
    place
}

/// A place with only zeros from it up to `to`: `to` itself where few words are behind `from`.
#[inline(always)]
fn pass_back(words: &[u32], from: usize, to: usize) -> usize
    requires from { from ≤ to }
    requires to { to ≤ length words.now }
    ensures at_least { from ≤ result }
    ensures at_most { result ≤ to }
    ensures passed { (j : ℕ) → result * 32 ≤ j → j < to * 32 → has words.now j ≡ false }
{
    if to - from < 8 {
        return to;
    }
    pass_back_eights(words, from, to)
}

/// The same, at most seven words behind the last word that isn't 0, or behind `from`.
#[inline(never)]
fn pass_back_eights(words: &[u32], from: usize, to: usize) -> usize
    requires from { from ≤ to }
    requires to { to ≤ length words.now }
    ensures at_least { from ≤ result }
    ensures at_most { result ≤ to }
    ensures passed { (j : ℕ) → result * 32 ≤ j → j < to * 32 → has words.now j ≡ false }
{
    let mut place = to;
    while place - from >= 8 && are_eight_zeros(words, place - 8) {
        place -= 8;
    }
    place
}

/// Whether the eight words from a place on are 0. No branch is between them, so that the processor takes four at once.
#[inline(always)]
fn are_eight_zeros(words: &[u32], place: usize) -> bool
    requires { place + 8 ≤ length words.now }
    ensures { result ≡ true → (j : ℕ) → place * 32 ≤ j → j < place * 32 + 256 → has words.now j ≡ false }
{
    let first = words[place] | words[place + 1] | words[place + 2] | words[place + 3];
    let second = words[place + 4] | words[place + 5] | words[place + 6] | words[place + 7];
    (first | second) == 0
}

/// The bits of a word from one on.
fn bits_from(word: u32, from: usize) -> u32
    requires { from < 32 }
    ensures below { (k : ℕ) → k < from → has_bit result k ≡ false }
    ensures others { (k : ℕ) → k < 32 → from ≤ k → has_bit result k ≡ has_bit word k }
{
    word & (u32::MAX << from)
}

/// The bits of a word up to one.
fn bits_upto(word: u32, to: usize) -> u32
    requires { to < 32 }
    ensures above { (k : ℕ) → to < k → has_bit result k ≡ false }
    ensures others { (k : ℕ) → k ≤ to → has_bit result k ≡ has_bit word k }
{
    word & (u32::MAX >> (31 - to))
}

/// The least number of the word at a place, or `count`.
fn least_at(bits: u32, place: usize, count: usize) -> usize
    requires some { bits ≢ 0 }
    requires place { place ≤ count / 32 }
    ensures { IsLeastAt bits place count result }
{
    (place * 32 + bits.trailing_zeros() as usize).min(count)
}

/// The place behind the greatest number of the word at a place.
fn greatest_at(bits: u32, place: usize) -> usize
    requires some { bits ≢ 0 }
    requires place { place < 8796093022208 }
    ensures { IsGreatestAt bits place result }
{
    place * 32 + (32 - bits.leading_zeros() as usize)
}

/// Adds to the words the numbers of the masks.
pub(crate) fn unite_masks(words: &mut [u32], row: &[Mask])
    requires { All (λ m. m.place < length words.old) row.now }
    ensures { (j : ℕ) → has words.new j ≡ (has words.old j || names row.now j) }
{
    for mask in row {
        unite_mask(words, *mask);
    }
}

/// Adds to the words those numbers of the masks that the wanted words have.
pub(crate) fn unite_masks_in(words: &mut [u32], row: &[Mask], wanted: &[u32])
    requires row { All (λ m. m.place < length words.old) row.now }
    requires wanted { All (λ m. m.place < length wanted.now) row.now }
    ensures { (j : ℕ) → has words.new j ≡ (has words.old j || (names row.now j && has wanted.now j)) }
{
    for mask in row {
        unite_mask(words, common(*mask, wanted));
    }
}

/// Adds to the words those numbers of the masks that both other lists of words have.
pub(crate) fn unite_masks_in_both(words: &mut [u32], row: &[Mask], one: &[u32], other: &[u32])
    requires row { All (λ m. m.place < length words.old) row.now }
    requires one { All (λ m. m.place < length one.now) row.now }
    requires other { All (λ m. m.place < length other.now) row.now }
    ensures { (j : ℕ) → has words.new j ≡ (has words.old j || (names row.now j && (has one.now j && has other.now j))) }
{
    for mask in row {
        unite_mask(words, common(common(*mask, one), other));
    }
}

/// What the mask has in common with the words.
fn common(mask: Mask, words: &[u32]) -> Mask
    requires { mask.place < length words.now }
    ensures place { result.place ≡ mask.place }
    ensures hits { (j : ℕ) → hits j result ≡ (hits j mask && has words.now j) }
{
    Mask {
        place: mask.place,
        bits: mask.bits & words[mask.place as usize],
    }
}

/// Whether the bit of a number is 1.
pub(crate) fn has_bit_at(words: &[u32], j: usize) -> bool
    requires { j / 32 < length words.now }
    ensures { result ≡ has words.now j }
{
    (words[j / 32] >> (j % 32)) & 1 == 1
}

/// Adds to the words the numbers of a mask.
fn unite_mask(words: &mut [u32], mask: Mask)
    requires { mask.place < length words.old }
    ensures { (j : ℕ) → has words.new j ≡ (has words.old j || hits j mask) }
{
    words[mask.place as usize] |= mask.bits;
}

/// Marks the pages of the masks.
#[inline(always)]
pub(crate) fn mark_pages(pages: &mut [bool], row: &[Mask])
    ensures kept { (p : ℕ) → slice_index_or pages.old p true ≡ true → slice_index_or pages.new p true ≡ true }
    ensures marked { (j : ℕ) → names row.now j ≡ true → slice_index_or pages.new (j / 2048) true ≡ true }
{
    if pages.len() != 0 {
        mark_each(pages, row);
    }
}

/// The same, where there are pages that have marks.
#[inline(never)]
fn mark_each(pages: &mut [bool], row: &[Mask])
    ensures kept { (p : ℕ) → slice_index_or pages.old p true ≡ true → slice_index_or pages.new p true ≡ true }
    ensures marked { (j : ℕ) → names row.now j ≡ true → slice_index_or pages.new (j / 2048) true ≡ true }
{
    for mask in row {
        let page = mask.place as usize / PAGE;
        if page < pages.len() {
            pages[page] = true;
        }
    }
}

/// Sets the words of the marked pages to 0, and those of the last page, which has no mark.
pub(crate) fn clear_pages(words: &mut [u32], pages: &[bool])
    requires small { length pages.now < 137438953472 }
    ensures kept { (j : ℕ) → has words.old j ≡ false → has words.new j ≡ false }
    ensures cleared { (j : ℕ) → slice_index_or pages.now (j / 2048) true ≡ true → has words.new j ≡ false }
{
    for page in 0..pages.len() {
        if pages[page] {
            clear_words(words, page * PAGE, page * PAGE + PAGE);
        }
    }
    let end = words.len();
    clear_words(words, pages.len() * PAGE, end);
}

/// Sets the words from one place on and before another to 0.
fn clear_words(words: &mut [u32], from: usize, to: usize)
    ensures kept { (j : ℕ) → has words.old j ≡ false → has words.new j ≡ false }
    ensures cleared { (j : ℕ) → from * 32 ≤ j → j < to * 32 → has words.new j ≡ false }
{
    for place in from..to.min(words.len()) {
        words[place] = 0;
    }
}

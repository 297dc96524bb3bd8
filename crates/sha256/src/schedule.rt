//! The message schedule of FIPS 180-4, section 6.2.2, sixteen words at a time, in vectors of four.

ghost use Rattle.std.specs.Prelude.{◌≡◌, ℕ, ◌+◌, ◌<◌, ◌≤◌, List, map};
ghost use Rattle.sha256.specs.Compression.{schedule, word_at, words};
ghost use Rattle.sha256.specs.Window.{Scheduled, Shows, four_at};
ghost use Rattle.sha256.specs.Words.{ROTR, σ0, σ1};

use std::simd::prelude::*;

/// Sixteen words of a schedule in a row.
#[derive(Clone, Copy)]
pub(crate) struct Window {
    pub(crate) w0: u32x4,
    pub(crate) w4: u32x4,
    pub(crate) w8: u32x4,
    pub(crate) w12: u32x4,
}

fn rotate_right(x: u32x4, k: u32) -> u32x4
    requires { (0 < k) × (k < 32) }
    ensures { result ≡ map (ROTR k) x }
{
    (x >> u32x4::splat(k)) | (x << u32x4::splat(32 - k))
}

fn small_sigma0(x: u32x4) -> u32x4
    ensures { result ≡ map σ0 x }
{
    rotate_right(x, 7) ^ rotate_right(x, 18) ^ (x >> u32x4::splat(3))
}

fn small_sigma1(x: u32x4) -> u32x4
    ensures { result ≡ map σ1 x }
{
    rotate_right(x, 17) ^ rotate_right(x, 19) ^ (x >> u32x4::splat(10))
}

/// The four words after sixteen. The first two are known once the last two of `w12` are added to their sums, and the last two
/// once the first two are.
fn next(w0: u32x4, w4: u32x4, w8: u32x4, w12: u32x4) -> u32x4
    ensures { (W : List ℕ) (t : ℕ) → Scheduled W → t < 45 → w0 ≡ four_at W t → w4 ≡ four_at W (t + 4) → w8 ≡ four_at W (t + 8) → w12 ≡ four_at W (t + 12) → result ≡ four_at W (t + 16) }
{
    let w1 = w0.shuffle(w4, [1, 2, 3, 4]);
    let w9 = w8.shuffle(w12, [1, 2, 3, 4]);
    let sum = w0 + small_sigma0(w1) + w9;
    let none = u32x4::splat(0);
    let front = sum + small_sigma1(w12).shuffle(none, [2, 3, 4, 5]);
    front + none.shuffle(small_sigma1(front), [0, 1, 4, 5])
}

/// The word `i` of a block, its first byte the highest.
fn word(block: &[u8; 64], i: usize) -> u32
    requires { i < 16 }
    ensures { result ≡ word_at block.now i }
{
    let (words, _) = block.as_chunks::<4>();
    u32::from_be_bytes(words[i])
}

/// The four words of a block from the word `i` on, with which its schedule begins.
fn four_words(block: &[u8; 64], i: usize) -> u32x4
    requires { i + 4 ≤ 16 }
    ensures { result ≡ four_at (schedule (words block.now 16) 48) i }
{
    u32x4::from_array([
        word(block, i),
        word(block, i + 1),
        word(block, i + 2),
        word(block, i + 3),
    ])
}

/// The first sixteen words of a block's schedule.
pub(crate) fn load(block: &[u8; 64]) -> Window
    ensures { Shows (schedule (words block.now 16) 48) 0 result }
{
    Window {
        w0: four_words(block, 0),
        w4: four_words(block, 4),
        w8: four_words(block, 8),
        w12: four_words(block, 12),
    }
}

/// The next sixteen words.
pub(crate) fn advance(w: Window) -> Window
    ensures { (W : List ℕ) (t : ℕ) → Scheduled W → t < 33 → Shows W t w → Shows W (t + 16) result }
{
    let w16 = next(w.w0, w.w4, w.w8, w.w12);
    let w20 = next(w.w4, w.w8, w.w12, w16);
    let w24 = next(w.w8, w.w12, w16, w20);
    let w28 = next(w.w12, w16, w20, w24);
    Window {
        w0: w16,
        w4: w20,
        w8: w24,
        w12: w28,
    }
}

//! Draws from the words of ChaCha20 (RFC 8439's block function).
//!
//! A [`Draws`] reads the 32-bit words of one stream in order: the seed is the key, the number of the
//! stream is the 64-bit nonce, and the first word has place 0. Each draw is a function of the words
//! at the place where it starts, and moves the place by the words that it takes.
#![tactic(auto)]

mod divisor;

ghost use Rattle.std.specs.Prelude.{◌≡◌, ◌^◌, ◌<◌, ◌≤◌, length, replicate, pos, unsigned_abs, IfOk, OnOk, OnErr};
ghost use Rattle.std.specs.List.{range_with_len};
ghost use Rattle.rand_chacha.specs.ChaCha.{key_of};
ghost use Rattle.draw_stream.specs.Draw.{word, after, HasRoom, error_of, small_of, uniform_at};
ghost use Rattle.draw_stream.specs.Sparse.{IsStart, sign_of, sparse_of, sparse_words, SparseIsSparse};

use divisor::Divisor;
use rand_chacha::ChaCha20Rng;
use rand_core::SeedableRng;
use rand_core::utils::NextWord;
use std::alloc::{AllocError, Global};
use std::marker::Model;

/// The draws of one stream of words, from a place on.
///
/// The place of the next word stays below 2^60.
#[derive(Drop)]
pub struct Draws {
    words: ChaCha20Rng,
    // of the last uniform number
    divisor: Divisor,
}

impl Model for Draws {
    ghost use Rattle.draw_stream.specs.Draw.{Stream, rest_of};

    ghost Value = { Stream };

    ghost view = { λ d. rest_of d.words };
}

impl Draws {
    /// The draws of stream `stream` under a seed, from place 0.
    pub fn new(seed: [u8; 32], stream: u64) -> Draws
        ensures { result ≡ record { key = key_of seed; number = stream; place = 0 } }
    {
        let mut words = ChaCha20Rng::from_seed(seed);
        words.set_stream(stream);
        Draws {
            words,
            divisor: Divisor::new(1),
        }
    }

    /// The place of the next word, as the number of words before it.
    pub fn place(&self) -> u128
        ensures { result ≡ self.now.place }
    {
        self.words.get_word_pos()
    }

    /// A number below `q`, from four words: the 128-bit number that they make, the first word lowest,
    /// modulo `q`.
    pub fn uniform(&mut self, q: u64) -> u64
        requires modulus { (0 < q) × (q < 2 ^ 62) }
        requires room { HasRoom self.old 4 }
        ensures value { result ≡ uniform_at self.old self.old.place q }
        ensures below { result < q }
        ensures moved { self.new ≡ after self.old 4 }
    {
        let a = u64::from(self.next());
        let b = u64::from(self.next());
        let c = u64::from(self.next());
        let d = u64::from(self.next());
        let low = a + (b << 32);
        let high = c + (d << 32);
        self.divisor.set_modulus(q);
        self.divisor.residue(high, low)
    }

    /// -1, 0 or 1, from one word: bit 0 less bit 1.
    pub fn small(&mut self) -> i64
        requires { HasRoom self.old 1 }
        ensures value { result ≡ small_of (word self.old self.old.place) }
        ensures bound { unsigned_abs result ≤ 1 }
        ensures moved { self.new ≡ after self.old 1 }
    {
        let word = self.next();
        i64::from(word % 2) - i64::from(word / 2 % 2)
    }

    /// A number from -10 to 10, from one word: the ones among bits 0 to 9 less the ones among bits 10
    /// to 19.
    pub fn error(&mut self) -> i64
        requires { HasRoom self.old 1 }
        ensures value { result ≡ error_of (word self.old self.old.place) }
        ensures bound { unsigned_abs result ≤ 10 }
        ensures moved { self.new ≡ after self.old 1 }
    {
        let word = self.next();
        let low = (word % (1 << 10)).count_ones();
        let high = ((word >> 10) % (1 << 10)).count_ones();
        i64::from(low) - i64::from(high)
    }

    /// `n` coefficients of which `weight` are 1 or -1 and the others 0, from five words for each of
    /// the `weight`.
    ///
    /// Want of memory is found before the first word is taken.
    pub fn sparse(&mut self, alloc: Global, n: u32, weight: u32) -> Result<Vec<i64>, AllocError>
        requires within { weight ≤ n }
        requires room { HasRoom self.old (sparse_words weight) }
        ensures value { IfOk result (λ xs. xs.items ≡ sparse_of self.old n weight) }
        ensures moved { OnOk result (self.new ≡ after self.old (sparse_words weight)) }
        ensures err { OnErr result (self.new ≡ self.old) }
    {
        let mut order = numbers(alloc, n)?;
        let mut coefficients = zeros(alloc, n)?;
        self.choose(&mut order, &mut coefficients, weight as usize);
        Ok(coefficients)
    }

    // Chooses some coefficients and gives each a sign. `order` has the numbers of all coefficients.
    fn choose(&mut self, order: &mut [u32], coefficients: &mut [i64], weight: usize)
        requires within { weight ≤ length order.old }
        requires few { length order.old < 2 ^ 32 }
        requires room { HasRoom self.old (sparse_words weight) }
        requires start { IsStart (length order.old) order.old coefficients.old }
        ensures value { coefficients.new ≡ sparse_of self.old (length order.old) weight }
        ensures moved { self.new ≡ after self.old (sparse_words weight) }
    {
        let n = order.len();
        for i in 0..weight {
            let j = i + self.uniform((n - i) as u64) as usize;
            order.swap(i, j);
            coefficients[order[i] as usize] = self.sign();
        }
    }

    // 1 for an even word, -1 for an odd one.
    fn sign(&mut self) -> i64
        requires { HasRoom self.old 1 }
        ensures value { result ≡ sign_of (word self.old self.old.place) }
        ensures moved { self.new ≡ after self.old 1 }
    {
        if self.next() % 2 == 0 { 1 } else { -1 }
    }

    // The word at the place.
    fn next(&mut self) -> u32
        requires { HasRoom self.old 1 }
        ensures value { result ≡ word self.old self.old.place }
        ensures moved { self.new ≡ after self.old 1 }
    {
        self.words.next_word()
    }
}

// The numbers below `n`, in order.
fn numbers(alloc: Global, n: u32) -> Result<Vec<u32>, AllocError>
    ensures { IfOk result (λ xs. xs.items ≡ range_with_len 0 n) }
{
    (0..n).collect(alloc)
}

// `n` zeros.
fn zeros(alloc: Global, n: u32) -> Result<Vec<i64>, AllocError>
    ensures { IfOk result (λ xs. xs.items ≡ replicate n (pos 0)) }
{
    vec![in alloc; 0; n as usize]
}

/// Each list that `sparse` gives has `n` coefficients, as many as the weight says are not 0, and each
/// of these is 1 or -1. The contract is the law; the body does nothing.
pub fn law_sparse()
    ensures { SparseIsSparse }
{}

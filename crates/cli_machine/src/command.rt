//! What the words of a line ask for.
ghost use Rattle.std.specs.Prelude.{◌≡◌, map, IfOk, string_bytes};
ghost use Rattle.cli_machine.specs.Commands.{command_of, clear_of, decrypt_of, encrypt_of, key_gen_of, make_table_of, names_of, noise_of, pair_of, pub_key_of, summarise_of};

use crate::names::Names;
use line_text::{Name, number};
use std::alloc::{AllocError, Global};

/// What a line asks for.
#[derive(Drop)]
pub enum Command {
    /// Runs a program on arrays, under a table, and prints the array of its output.
    Clear {
        table: Name,
        program: Name,
        inputs: Names,
    },
    /// Prints the summary of a table.
    Summarise {
        table: Name,
    },
    /// Fills in a template, and saves the table.
    MakeTable {
        source: Name,
        table: Name,
    },
    /// Draws a secret of a table from a stream of a seed, and saves it.
    KeyGen {
        table: Name,
        key: Name,
        seed: Name,
        stream: u64,
    },
    /// Draws a public key of a secret from a stream of a seed, and saves it.
    PubKey {
        key: Name,
        seed: Name,
        stream: u64,
    },
    /// Encrypts an array under a public key by draws from a stream of a seed, and saves the ciphertext.
    Encrypt {
        key: Name,
        cipher: Name,
        seed: Name,
        stream: u64,
        input: Name,
    },
    /// Decrypts a ciphertext by a secret, and prints its array.
    Decrypt {
        key: Name,
        cipher: Name,
    },
    /// Prints the level of a ciphertext, its bound, and the limit of the level.
    Noise {
        cipher: Name,
    },
}

/// The command that the words ask for, if they are in a command's grammar.
#[tactic(auto, unfolding(crate::specs::Commands::command_of))]
pub fn command_of(alloc: Global, words: &[String]) -> Result<Option<Command>, AllocError>
    ensures { IfOk result (λ command. command ≡ command_of (map string_bytes words.now)) }
{
    match words {
        [word, rest @ ..] if word.as_str() == "clear" => clear_of(alloc, rest),
        [word, rest @ ..] if word.as_str() == "table" => summarise_of(alloc, rest),
        [word, rest @ ..] if word.as_str() == "maketable" => make_table_of(alloc, rest),
        [word, rest @ ..] if word.as_str() == "keygen" => key_gen_of(alloc, rest),
        [word, rest @ ..] if word.as_str() == "pubkey" => pub_key_of(alloc, rest),
        [word, rest @ ..] if word.as_str() == "encrypt" => encrypt_of(alloc, rest),
        [word, rest @ ..] if word.as_str() == "decrypt" => decrypt_of(alloc, rest),
        [word, rest @ ..] if word.as_str() == "noise" => noise_of(alloc, rest),
        _ => Ok(None),
    }
}

/// `clear T PROG X` with one or more X, from the word behind `clear` on.
#[tactic(auto, unfolding(crate::specs::Commands::clear_of))]
fn clear_of(alloc: Global, words: &[String]) -> Result<Option<Command>, AllocError>
    ensures { IfOk result (λ command. command ≡ clear_of (map string_bytes words.now)) }
{
    let [table, program, inputs @ ..] = words else {
        return Ok(None);
    };
    if inputs.is_empty() {
        return Ok(None);
    }
    let Some(table) = Name::read(alloc, table.as_bytes())? else {
        return Ok(None);
    };
    let Some(program) = Name::read(alloc, program.as_bytes())? else {
        return Ok(None);
    };
    let Some(inputs) = names_of(alloc, inputs)? else {
        return Ok(None);
    };
    Ok(Some(Command::Clear {
        table,
        program,
        inputs,
    }))
}

/// `table T`, from the word behind `table` on.
#[tactic(auto, unfolding(crate::specs::Commands::summarise_of))]
fn summarise_of(alloc: Global, words: &[String]) -> Result<Option<Command>, AllocError>
    ensures { IfOk result (λ command. command ≡ summarise_of (map string_bytes words.now)) }
{
    let [table] = words else {
        return Ok(None);
    };
    let Some(table) = Name::read(alloc, table.as_bytes())? else {
        return Ok(None);
    };
    Ok(Some(Command::Summarise { table }))
}

/// `maketable SRC T`, from the word behind `maketable` on.
#[tactic(auto, unfolding(crate::specs::Commands::make_table_of))]
fn make_table_of(alloc: Global, words: &[String]) -> Result<Option<Command>, AllocError>
    ensures { IfOk result (λ command. command ≡ make_table_of (map string_bytes words.now)) }
{
    let [source, table] = words else {
        return Ok(None);
    };
    let Some((source, table)) = pair_of(alloc, source, table)? else {
        return Ok(None);
    };
    Ok(Some(Command::MakeTable { source, table }))
}

/// `keygen T K SEED STREAM`, from the word behind `keygen` on.
#[tactic(auto, unfolding(crate::specs::Commands::key_gen_of))]
fn key_gen_of(alloc: Global, words: &[String]) -> Result<Option<Command>, AllocError>
    ensures { IfOk result (λ command. command ≡ key_gen_of (map string_bytes words.now)) }
{
    let [table, key, seed, stream] = words else {
        return Ok(None);
    };
    let Some(table) = Name::read(alloc, table.as_bytes())? else {
        return Ok(None);
    };
    let Some(key) = Name::read(alloc, key.as_bytes())? else {
        return Ok(None);
    };
    let Some(seed) = Name::read(alloc, seed.as_bytes())? else {
        return Ok(None);
    };
    let Some(stream) = number(stream.as_bytes()) else {
        return Ok(None);
    };
    Ok(Some(Command::KeyGen {
        table,
        key,
        seed,
        stream,
    }))
}

/// `pubkey K SEED STREAM`, from the word behind `pubkey` on.
#[tactic(auto, unfolding(crate::specs::Commands::pub_key_of))]
fn pub_key_of(alloc: Global, words: &[String]) -> Result<Option<Command>, AllocError>
    ensures { IfOk result (λ command. command ≡ pub_key_of (map string_bytes words.now)) }
{
    let [key, seed, stream] = words else {
        return Ok(None);
    };
    let Some(key) = Name::read(alloc, key.as_bytes())? else {
        return Ok(None);
    };
    let Some(seed) = Name::read(alloc, seed.as_bytes())? else {
        return Ok(None);
    };
    let Some(stream) = number(stream.as_bytes()) else {
        return Ok(None);
    };
    Ok(Some(Command::PubKey { key, seed, stream }))
}

/// `encrypt K C SEED STREAM X`, from the word behind `encrypt` on.
#[tactic(auto, unfolding(crate::specs::Commands::encrypt_of))]
fn encrypt_of(alloc: Global, words: &[String]) -> Result<Option<Command>, AllocError>
    ensures { IfOk result (λ command. command ≡ encrypt_of (map string_bytes words.now)) }
{
    let [key, cipher, seed, stream, input] = words else {
        return Ok(None);
    };
    let Some((key, cipher)) = pair_of(alloc, key, cipher)? else {
        return Ok(None);
    };
    let Some(seed) = Name::read(alloc, seed.as_bytes())? else {
        return Ok(None);
    };
    let Some(stream) = number(stream.as_bytes()) else {
        return Ok(None);
    };
    let Some(input) = Name::read(alloc, input.as_bytes())? else {
        return Ok(None);
    };
    Ok(Some(Command::Encrypt {
        key,
        cipher,
        seed,
        stream,
        input,
    }))
}

/// `decrypt K C`, from the word behind `decrypt` on.
#[tactic(auto, unfolding(crate::specs::Commands::decrypt_of))]
fn decrypt_of(alloc: Global, words: &[String]) -> Result<Option<Command>, AllocError>
    ensures { IfOk result (λ command. command ≡ decrypt_of (map string_bytes words.now)) }
{
    let [key, cipher] = words else {
        return Ok(None);
    };
    let Some((key, cipher)) = pair_of(alloc, key, cipher)? else {
        return Ok(None);
    };
    Ok(Some(Command::Decrypt { key, cipher }))
}

/// `noise C`, from the word behind `noise` on.
#[tactic(auto, unfolding(crate::specs::Commands::noise_of))]
fn noise_of(alloc: Global, words: &[String]) -> Result<Option<Command>, AllocError>
    ensures { IfOk result (λ command. command ≡ noise_of (map string_bytes words.now)) }
{
    let [cipher] = words else {
        return Ok(None);
    };
    let Some(cipher) = Name::read(alloc, cipher.as_bytes())? else {
        return Ok(None);
    };
    Ok(Some(Command::Noise { cipher }))
}

/// The names that two words spell.
#[tactic(auto, unfolding(crate::specs::Commands::pair_of))]
fn pair_of(
    alloc: Global,
    first: &String,
    second: &String,
) -> Result<Option<(Name, Name)>, AllocError>
    ensures { IfOk result (λ pair. pair ≡ pair_of (string_bytes first.now) (string_bytes second.now)) }
{
    let Some(first) = Name::read(alloc, first.as_bytes())? else {
        return Ok(None);
    };
    let Some(second) = Name::read(alloc, second.as_bytes())? else {
        return Ok(None);
    };
    Ok(Some((first, second)))
}

/// The names that the words spell, if each spells one.
fn names_of(alloc: Global, words: &[String]) -> Result<Option<Names>, AllocError>
    ensures { IfOk result (λ names. names ≡ names_of (map string_bytes words.now)) }
{
    let mut names = Names::new(alloc);
    for word in words {
        let Some(name) = Name::read(alloc, word.as_bytes())? else {
            return Ok(None);
        };
        names.push(name)?;
    }
    Ok(Some(names))
}

ghost use Rattle.std.specs.Prelude.{◌≡◌, IfOk, IsErrOf, None, Some, map, option_map, string_bytes};
ghost use Rattle.clap.specs.Words.{first_of, found_of, rows_of, subcommand_rows_of};
ghost use Rattle.words.specs.Asking as asking;
ghost use Rattle.words.specs.Views.{view};

use crate::command_line::zope;
use crate::names::{is_index_of, is_one_line};
use crate::numbers::{number_of, short_number_of};
use clap::ArgMatches;
use clap::error::ErrorKind;
use fs_record::MAX_LENGTH;
use std::alloc::Global;
use zbase::{Tid, read_hex16};

/// How many clients may share a round of a server.
const MOST_CLIENTS: u16 = 16;

/// Why words ask for nothing.
#[derive(Debug, Drop)]
pub enum WordsRefusal {
    /// They are no command, or a number or an id breaks its rule.
    Usage,
    /// Want of memory.
    Memory,
}

/// What words ask for, over a file or a repository of a name.
#[derive(Debug, Drop)]
pub enum Asked<'a> {
    /// A new site with a manager of this name and password.
    Init {
        file: &'a str,
        name: &'a str,
        password: &'a str,
    },
    /// A replay of the schedule that is read, with a file of at most `limit` bytes.
    Replay {
        file: &'a str,
        limit: u64,
    },
    /// The requests of the schedule that is read, each run alone, with a file of at most `limit` bytes.
    Serial {
        file: &'a str,
        limit: u64,
    },
    /// A server of the site in the file, on a port, for so many connections, of which `clients` may share a round; what
    /// happens is recorded in a new file of the name `record`.
    Serve {
        file: &'a str,
        port: u16,
        connections: u64,
        clients: u32,
        record: &'a str,
    },
    /// The numbers of the file.
    Check {
        file: &'a str,
    },
    /// The history of the file.
    Dump {
        file: &'a str,
    },
    /// A backup of the file in a repository: of what is new of it, or of all of it where `full` says so.
    Backup {
        file: &'a str,
        repo: &'a str,
        full: bool,
    },
    /// The file that a repository's pieces are a backup of, made again as a new file of the name `out`.
    Restore {
        repo: &'a str,
        out: &'a str,
    },
    /// The run that this number draws, over a new site.
    Gen {
        number: u64,
    },
    /// The file without what nothing at this transaction or later needs.
    Pack {
        file: &'a str,
        before: Tid,
    },
}

// The value of an argument.
fn word_of<'a>(matches: &ArgMatches<'a>, id: &str) -> Option<&'a str>
    ensures { option_map (λ s. s.now) result ≡ first_of id.now (rows_of (found_of matches.now)) }
{
    matches.get_str(id)
}

fn init_of<'a>(matches: &ArgMatches<'a>) -> Option<Asked<'a>>
    ensures { option_map view result ≡ asking.init_of (rows_of (found_of matches.now)) }
{
    let file = word_of(matches, "FILE")?;
    let name = word_of(matches, "NAME")?;
    let password = word_of(matches, "PASSWORD")?;
    Some(Asked::Init {
        file,
        name,
        password,
    })
}

// How many bytes the file may have, where a number that is given keeps its rule.
fn limit_of(matches: &ArgMatches) -> Option<u64>
    ensures { result ≡ asking.limit_of (rows_of (found_of matches.now)) }
{
    match word_of(matches, "limit") {
        Some(text) => number_of(MAX_LENGTH, text),
        None => Some(MAX_LENGTH),
    }
}

fn replay_of<'a>(matches: &ArgMatches<'a>) -> Option<Asked<'a>>
    ensures { option_map view result ≡ asking.replay_of (rows_of (found_of matches.now)) }
{
    let file = word_of(matches, "FILE")?;
    let limit = limit_of(matches)?;
    Some(Asked::Replay { file, limit })
}

fn serial_of<'a>(matches: &ArgMatches<'a>) -> Option<Asked<'a>>
    ensures { option_map view result ≡ asking.serial_of (rows_of (found_of matches.now)) }
{
    let file = word_of(matches, "FILE")?;
    let limit = limit_of(matches)?;
    Some(Asked::Serial { file, limit })
}

fn port_of(matches: &ArgMatches) -> Option<u16>
    ensures { result ≡ asking.port_of (rows_of (found_of matches.now)) }
{
    let text = word_of(matches, "port")?;
    short_number_of(u16::MAX, text)
}

fn connections_of(matches: &ArgMatches) -> Option<u64>
    ensures { result ≡ asking.connections_of (rows_of (found_of matches.now)) }
{
    let text = word_of(matches, "connections")?;
    number_of(u64::MAX, text)
}

// How many clients may share a round, where a number that is given keeps its rule.
fn clients_of(matches: &ArgMatches) -> Option<u32>
    ensures { result ≡ asking.clients_of (rows_of (found_of matches.now)) }
{
    let Some(text) = word_of(matches, "clients") else {
        return Some(1);
    };
    let clients = short_number_of(MOST_CLIENTS, text)?;
    if clients > 0 {
        Some(clients as u32)
    } else {
        None
    }
}

fn serve_of<'a>(matches: &ArgMatches<'a>) -> Option<Asked<'a>>
    ensures { option_map view result ≡ asking.serve_of (rows_of (found_of matches.now)) }
{
    let file = word_of(matches, "FILE")?;
    let port = port_of(matches)?;
    let connections = connections_of(matches)?;
    let clients = clients_of(matches)?;
    let record = word_of(matches, "record")?;
    Some(Asked::Serve {
        file,
        port,
        connections,
        clients,
        record,
    })
}

fn check_of<'a>(matches: &ArgMatches<'a>) -> Option<Asked<'a>>
    ensures { option_map view result ≡ asking.check_of (rows_of (found_of matches.now)) }
{
    let file = word_of(matches, "FILE")?;
    Some(Asked::Check { file })
}

fn dump_of<'a>(matches: &ArgMatches<'a>) -> Option<Asked<'a>>
    ensures { option_map view result ≡ asking.dump_of (rows_of (found_of matches.now)) }
{
    let file = word_of(matches, "FILE")?;
    Some(Asked::Dump { file })
}

// Whether a flag is given, whose value is a word, too.
fn is_given(matches: &ArgMatches, id: &str) -> bool
    ensures { result ≡ asking.is_given id.now (rows_of (found_of matches.now)) }
{
    match word_of(matches, id) {
        Some(value) => value == "true",
        None => false,
    }
}

// The name of a repository, where it keeps its rule.
fn repo_of<'a>(matches: &ArgMatches<'a>) -> Option<&'a str>
    ensures { option_map (λ s. s.now) result ≡ asking.repo_of (rows_of (found_of matches.now)) }
{
    let repo = word_of(matches, "REPO")?;
    if is_one_line(repo) { Some(repo) } else { None }
}

fn backup_of<'a>(matches: &ArgMatches<'a>) -> Option<Asked<'a>>
    ensures { option_map view result ≡ asking.backup_of (rows_of (found_of matches.now)) }
{
    let file = word_of(matches, "FILE")?;
    let repo = repo_of(matches)?;
    if is_index_of(repo, file) {
        return None;
    }
    let full = is_given(matches, "full");
    Some(Asked::Backup { file, repo, full })
}

fn restore_of<'a>(matches: &ArgMatches<'a>) -> Option<Asked<'a>>
    ensures { option_map view result ≡ asking.restore_of (rows_of (found_of matches.now)) }
{
    let repo = repo_of(matches)?;
    let out = word_of(matches, "OUT")?;
    Some(Asked::Restore { repo, out })
}

// The id of a transaction, where a text that is given keeps its rule.
#[tactic(auto, using(crate::proofs::Tids::tid_is, crate::proofs::Tids::no_tid))]
fn tid_of(matches: &ArgMatches) -> Option<Tid>
    ensures { result ≡ asking.pack_tid (rows_of (found_of matches.now)) }
{
    let text = word_of(matches, "TID")?;
    let tid = read_hex16(text.as_bytes())?;
    Some(Tid(tid))
}

fn pack_of<'a>(matches: &ArgMatches<'a>) -> Option<Asked<'a>>
    ensures { option_map view result ≡ asking.pack_of (rows_of (found_of matches.now)) }
{
    let file = word_of(matches, "FILE")?;
    let before = tid_of(matches)?;
    Some(Asked::Pack { file, before })
}

// The number that a run is drawn from, where it keeps its rule.
fn drawn_number(matches: &ArgMatches) -> Option<u64>
    ensures { result ≡ asking.drawn_number (rows_of (found_of matches.now)) }
{
    let text = word_of(matches, "N")?;
    number_of(u64::MAX, text)
}

fn gen_of<'a>(matches: &ArgMatches<'a>) -> Option<Asked<'a>>
    ensures { option_map view result ≡ asking.gen_of (rows_of (found_of matches.now)) }
{
    let number = drawn_number(matches)?;
    Some(Asked::Gen { number })
}

// What the subcommand asks for that was found.
#[tactic(auto, unfolding(crate::specs::Asking::by_subcommand))]
fn asked_of<'a>(matches: &ArgMatches<'a>) -> Option<Asked<'a>>
    ensures { option_map view result ≡ asking.by_subcommand (subcommand_rows_of matches.now) }
{
    let (name, within) = matches.subcommand()?;
    if name == "init" {
        init_of(within)
    } else if name == "replay" {
        replay_of(within)
    } else if name == "serve" {
        serve_of(within)
    } else if name == "check" {
        check_of(within)
    } else if name == "dump" {
        dump_of(within)
    } else if name == "backup" {
        backup_of(within)
    } else if name == "restore" {
        restore_of(within)
    } else if name == "pack" {
        pack_of(within)
    } else if name == "serial" {
        serial_of(within)
    } else if name == "gen" {
        gen_of(within)
    } else {
        None
    }
}

/// What the words ask for. The program's name is none of them.
///
/// `Usage` comes exactly where they ask for nothing, want of memory aside.
pub fn read_words<'a>(alloc: Global, words: &'a [String]) -> Result<Asked<'a>, WordsRefusal>
    ensures ok { IfOk result (λ asked. asking.asked_of (map string_bytes words.entry.now) ≡ Some (view asked)) }
    ensures usage { IsErrOf result WordsRefusal.Usage → asking.asked_of (map string_bytes words.entry.now) ≡ None }
{
    let Ok(command) = zope(alloc) else {
        return Err(WordsRefusal::Memory);
    };
    match command.try_get_matches_from(words) {
        Ok(matches) => match asked_of(&matches) {
            Some(asked) => Ok(asked),
            None => Err(WordsRefusal::Usage),
        },
        Err(error) => match error.kind() {
            ErrorKind::OutOfMemory => Err(WordsRefusal::Memory),
            _ => Err(WordsRefusal::Usage),
        },
    }
}

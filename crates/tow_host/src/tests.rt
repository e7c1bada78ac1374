//! What a host in memory gives and tells.

ghost use Rattle.std.specs.Prelude.{◌≡◌, ◌<◌, IfOk, true};
ghost use Rattle.std.specs.Option.{ForSome};
ghost use Rattle.tow_model.specs.declared.limits.TheConstants.{FIRST_UNDATED};

use super::*;
use std::alloc::{AllocError, Global};
use std::test::Fail;
use tow_folder::{FailingCalls, Folder, Look, MemoryFile};
use tow_link::{
    Joined, KeyCounts, Made, Maker, MemoryMaker, MemorySink, MemorySource, Whole, read_whole,
    write_all,
};
use tow_model::{Account, Bytes, End, List};

fn source(alloc: Global, bytes: &[u8]) -> Result<MemorySource, AllocError> {
    Ok(MemorySource::new(bytes.to_vec(alloc)?, Vec::new(alloc)))
}

/// A host of the texts `one` and `three` under `a` and `two` under `b`, whose second call of `text` fails, with the
/// input `in`.
fn host(alloc: Global) -> Result<MemoryHost, AllocError>
    ensures home { IfOk result (λ host. host.is_home ≡ true) }
{
    let mut texts = Vec::new(alloc);
    for (name, bytes) in [("a", b"one".as_slice()), ("b", b"two"), ("a", b"three")] {
        texts.push(NamedText {
            name: String::from_str(alloc, name)?,
            source: source(alloc, bytes)?,
        })?;
    }
    let streams = Joined {
        input: source(alloc, b"in")?,
        output: MemorySink::new(alloc, Vec::new(alloc)),
    };
    let clock = MemoryClock::of_moments(&MOMENTS, 5);
    Ok(MemoryHost::new(
        alloc,
        MemoryTexts::new(texts),
        streams,
        clock,
        [1].to_vec(alloc)?,
    ))
}

const MOMENTS: [MomentAt; 2] = [
    MomentAt {
        k: 0,
        j: 2,
        second: 7,
    },
    MomentAt {
        k: 1,
        j: 2,
        second: 8,
    },
];

/// The text of a name, whose source is handed back; `!` where the host fails.
fn text_of<H: Host>(alloc: Global, host: &mut H, name: &str) -> Result<Vec<u8>, AllocError> {
    let Ok(mut text) = host.text(name) else {
        return b"!".to_vec(alloc);
    };
    let whole = read_whole(alloc, &mut text, 9);
    host.take_back(Kept {
        text: Some(text),
        streams: None,
        folders: Vec::new(alloc),
        logs: Vec::new(alloc),
        account: None,
    });
    match whole {
        Whole::Bytes(bytes) => Ok(bytes),
        _ => b"?".to_vec(alloc),
    }
}

/// The texts of these names one after the other, then how often `a`, `b` and `c` failed and how many sources came
/// back, and the text that came back last.
fn texts_of(alloc: Global, names: &[&str]) -> Result<(Vec<u8>, [u64; 4], Vec<u8>), AllocError> {
    let mut host = host(alloc)?;
    let mut texts = Vec::new(alloc);
    for name in names {
        texts.extend_from_slice(&text_of(alloc, &mut host, name)?)?;
    }
    let counts = [
        host.faults_of("a"),
        host.faults_of("b"),
        host.faults_of("c"),
        host.returned(),
    ];
    let last = match host.kept_text() {
        Some(text) => text.taken().to_vec(alloc)?,
        None => Vec::new(alloc),
    };
    Ok((texts, counts, last))
}

/// Reads all of the input, and writes it to the output.
fn echo<H: Host>(alloc: Global, host: &mut H)
    requires { (H.held host.old).is_home ≡ true }
{
    let mut streams = host.lend();
    if let Whole::Bytes(bytes) = read_whole(alloc, &mut streams.input, 9) {
        let _ = write_all(&mut streams.output, &bytes);
    }
    host.take_back(Kept {
        text: None,
        streams: Some(streams),
        folders: Vec::new(alloc),
        logs: Vec::new(alloc),
        account: None,
    });
}

/// What an echo leaves: what the output has, and how much the input has left.
fn echoed(alloc: Global) -> Result<Option<(Vec<u8>, usize)>, AllocError> {
    let mut host = host(alloc)?;
    echo(alloc, &mut host);
    match (host.output(), host.input()) {
        (Some(output), Some(input)) => Ok(Some((
            output.written().to_vec(alloc)?,
            input.left().len(),
        ))),
        _ => Ok(None),
    }
}

/// The moments of the requests 1 and 2 of the connections 0 and 1.
fn seconds<H: Host>(host: &mut H, moment: Option<u64>) -> [u64; 4]
    requires { ForSome moment (λ second. second < FIRST_UNDATED) }
{
    let mut clock = host.clock(moment);
    [
        clock.at(0, 1),
        clock.at(0, 2),
        clock.at(1, 1),
        clock.at(1, 2),
    ]
}

/// The moments of a host, and then those of a clock that was given one.
fn moments(alloc: Global) -> Result<([u64; 4], [u64; 4]), AllocError> {
    let mut host = host(alloc)?;
    let told = seconds(&mut host, None);
    Ok((told, seconds(&mut host, Some(9))))
}

#[test]
fn a_text_comes_by_its_name(rt: HostRuntime) -> Result<(), Fail> {
    let (texts, counts, last) = texts_of(rt.alloc(), &["a", "b", "b", "c"])?;
    assert_eq!(rt; texts.as_slice(), b"one!two!".as_slice());
    assert_eq!(rt; counts, [0, 1, 1, 2]);
    assert_eq!(rt; last.as_slice(), b"two".as_slice());
    Ok(())
}

#[test]
fn what_was_lent_comes_back(rt: HostRuntime) -> Result<(), Fail> {
    let (written, left) = echoed(rt.alloc())?.ok_or("lent")?;
    assert_eq!(rt; written.as_slice(), b"in".as_slice());
    assert_eq!(rt; left, 0);
    Ok(())
}

#[test]
fn a_clock_tells_its_moments(rt: HostRuntime) -> Result<(), Fail> {
    let (told, given) = moments(rt.alloc())?;
    assert_eq!(rt; told, [5, 7, 5, 8]);
    assert_eq!(rt; given, [9, 9, 9, 9]);
    Ok(())
}

/// Whether a host that refuses this pattern as too large builds these, and how often it has refused the first of them.
fn builds(alloc: Global, large: &[u8], patterns: &[&[u8]]) -> Result<(Vec<bool>, u64), AllocError> {
    let mut counts = KeyCounts::new(alloc);
    counts.begin(large.to_vec(alloc)?)?;
    let mut host = host(alloc)?.with_maker(MemoryMaker::new(counts));
    let mut built = Vec::new(alloc);
    for pattern in patterns {
        built.push(is_built(alloc, &mut host, pattern))?;
    }
    Ok((
        built,
        host.larges_of(patterns.first().copied().unwrap_or(b"")),
    ))
}

fn is_built<H: Host>(alloc: Global, host: &mut H, pattern: &[u8]) -> bool {
    matches!(host.make(alloc, pattern), Made::Built(_))
}

#[test]
fn a_host_makes_patterns(rt: HostRuntime) -> Result<(), Fail> {
    let (built, larges) = builds(rt.alloc(), b"a", &[b"a", b"b", b"("])?;
    assert_eq!(rt; built.as_slice(), [false, true, false].as_slice());
    assert_eq!(rt; larges, 1);
    Ok(())
}

/// Puts lines, each of a connection, a request and a log, and says of each whether it was stored.
fn put_all<L: LogSink>(
    alloc: Global,
    log: &mut L,
    lines: &[(u32, u32, u32, &[u8])],
) -> Result<Vec<bool>, AllocError> {
    let mut stored = Vec::new(alloc);
    for (k, j, number, line) in lines {
        stored.push(log.put(*k, *j, *number, line) == Put::Stored)?;
    }
    Ok(stored)
}

/// The lines of a log as `k j number text`, each with its line end.
fn told(alloc: Global, log: &MemoryLog) -> Result<Vec<u8>, AllocError> {
    let mut out = Vec::new(alloc);
    for line in log.lines() {
        let (k, j, number) = (line.connection, line.request, line.number);
        out.extend_from_slice(format!(in alloc; "{k} {j} {number} ")?.as_bytes())?;
        out.extend_from_slice(line.text.as_slice())?;
        out.push(b'\n')?;
    }
    Ok(out)
}

/// Puts the lines into a new log of this number, and adds it to those that will be handed back.
fn log_once<H: Host>(
    alloc: Global,
    host: &mut H,
    number: u32,
    logs: &mut Vec<H::Log>,
) -> Result<(), AllocError> {
    if let Ok(mut log) = host.log(number) {
        let _stored = put_all(alloc, &mut log, &LINES)?;
        logs.push(log)?;
    }
    Ok(())
}

/// Hands these logs back, with an account of so many exchanges.
fn hand_back<H: Host>(alloc: Global, host: &mut H, logs: Vec<H::Log>, exchanges: u32) {
    host.take_back(Kept {
        text: None,
        streams: None,
        folders: Vec::new(alloc),
        logs,
        account: Some(Account {
            end: End::Done,
            exchanges,
            calls: List::new(alloc),
            hops: List::new(alloc),
        }),
    });
}

/// Lines of two connections, of which the second is to fail.
const LINES: [(u32, u32, u32, &[u8]); 4] = [
    (0, 1, 1, b"b 204"),
    (7, 1, 0, b"a 204"),
    (0, 2, 1, b""),
    (0, 2, 0, b"a 404"),
];

/// What a log whose second put fails says, holds and has refused.
fn logged(alloc: Global) -> Result<(Vec<bool>, Vec<u8>, Vec<u32>), AllocError> {
    let mut log = MemoryLog::new(alloc, [1].to_vec(alloc)?);
    let stored = put_all(alloc, &mut log, &LINES)?;
    let lines = told(alloc, &log)?;
    Ok((stored, lines, log.refused().to_vec(alloc)?))
}

#[test]
fn a_log_holds_what_it_stored(rt: HostRuntime) -> Result<(), Fail> {
    let (stored, lines, refused) = logged(rt.alloc())?;
    assert_eq!(rt; stored.as_slice(), [true, false, true, true].as_slice());
    assert_eq!(rt;
        lines.as_slice(),
        b"0 1 1 b 204\n0 2 1 \n0 2 0 a 404\n".as_slice()
    );
    assert_eq!(rt; refused.as_slice(), [7].as_slice());
    Ok(())
}

#[test]
fn a_new_log_is_empty(rt: HostRuntime) {
    let alloc = rt.alloc();
    let log = MemoryLog::new(alloc, Vec::new(alloc));
    assert_eq!(rt; log.lines().len(), 0);
    assert_eq!(rt; log.unnoted(), 0);
}

/// Asks for the logs 2, 5 and 3, and hands back those that it gets, with an account of 4 exchanges.
fn log_thrice<H: Host>(alloc: Global, host: &mut H) -> Result<(), AllocError> {
    let mut logs = Vec::new(alloc);
    for number in [2, 5, 3] {
        log_once(alloc, host, number, &mut logs)?;
    }
    hand_back(alloc, host, logs, 4);
    Ok(())
}

/// A host whose second call of `log` fails and the third put of each log, after its logs were asked
/// for and handed back.
fn logging_host(alloc: Global) -> Result<MemoryHost, AllocError> {
    let mut host = host(alloc)?.with_failing_logs([1].to_vec(alloc)?, [2].to_vec(alloc)?);
    log_thrice(alloc, &mut host)?;
    Ok(host)
}

/// The lines of these logs one after the other, with a line `-` behind each log.
fn told_all(alloc: Global, logs: &[MemoryLog]) -> Result<Vec<u8>, AllocError> {
    let mut out = Vec::new(alloc);
    for log in logs {
        out.extend_from_slice(told(alloc, log)?.as_slice())?;
        out.extend_from_slice(b"-\n")?;
    }
    Ok(out)
}

/// How many exchanges the account has that was handed back.
fn exchanges(host: &MemoryHost) -> u32 {
    match host.account() {
        Some(account) => account.exchanges,
        None => 0,
    }
}

/// How many lines the log has that was handed back at this place.
fn line_count(host: &MemoryHost, place: usize) -> u64 {
    match host.lines(place) {
        Some(lines) => lines.len() as u64,
        None => 0,
    }
}

/// What a host holds of logs: their lines, the numbers of those that it refused, then how many were
/// handed out and back, how many exchanges its account has, and how many lines the second log and
/// the third have.
type LogsHeld = (Vec<u8>, Vec<u32>, [u64; 5]);

/// What this host holds of logs.
fn held_of(alloc: Global, host: &MemoryHost) -> Result<LogsHeld, AllocError> {
    let counts = [
        host.logs_handed(),
        host.logs_returned(),
        exchanges(host) as u64,
        line_count(host, 1),
        line_count(host, 2),
    ];
    let lines = told_all(alloc, host.logs())?;
    Ok((lines, host.refused_logs().to_vec(alloc)?, counts))
}

/// What a host holds of logs after it gave and took some, and then, if so, only a text.
fn logging(alloc: Global, with_text: bool) -> Result<LogsHeld, AllocError> {
    let mut host = logging_host(alloc)?;
    if with_text {
        let _text = text_of(alloc, &mut host, "a")?;
    }
    held_of(alloc, &host)
}

/// The lines of both logs, whose third put failed.
const LOGGED: &[u8] =
    b"0 1 1 b 204\n7 1 0 a 204\n0 2 0 a 404\n-\n0 1 1 b 204\n7 1 0 a 204\n0 2 0 a 404\n-\n";

#[test]
fn logs_and_the_account_come_back(rt: HostRuntime) -> Result<(), Fail> {
    let (lines, refused, counts) = logging(rt.alloc(), false)?;
    assert_eq!(rt; lines.as_slice(), LOGGED);
    assert_eq!(rt; refused.as_slice(), [5].as_slice());
    assert_eq!(rt; counts, [2, 2, 4, 3, 0]);
    Ok(())
}

#[test]
fn parts_that_are_not_there_leave_what_is_held(rt: HostRuntime) -> Result<(), Fail> {
    let (lines, _refused, counts) = logging(rt.alloc(), true)?;
    assert_eq!(rt; lines.as_slice(), LOGGED);
    assert_eq!(rt; counts, [2, 2, 4, 3, 0]);
    Ok(())
}

/// A folder of one file at `/f` or at another path, under a name, of which these looks fail.
fn named_folder(
    alloc: Global,
    (name, path, bytes): (&str, &[u8], &[u8]),
    looks: &[u64],
) -> Result<NamedFolder, AllocError> {
    let mut files = Vec::new(alloc);
    files.push(MemoryFile {
        path: Bytes::from_slice(alloc, path)?,
        second: 0,
        bytes: Bytes::from_slice(alloc, bytes)?,
    })?;
    Ok(NamedFolder {
        name: String::from_str(alloc, name)?,
        files,
        failing: FailingCalls {
            look: looks.to_vec(alloc)?,
            read_at: Vec::new(alloc),
            names: Vec::new(alloc),
        },
    })
}

/// Folders of one file each: two of the name `a`, `b`, whose first look fails, and `x`, whose path
/// is none of a folder.
fn named_folders(alloc: Global) -> Result<MemoryFolders, AllocError> {
    let mut folders = Vec::new(alloc);
    folders.push(named_folder(alloc, ("a", b"/f", b"one"), &[])?)?;
    folders.push(named_folder(alloc, ("b", b"/f", b"two"), &[0])?)?;
    folders.push(named_folder(alloc, ("a", b"/f", b"other"), &[])?)?;
    folders.push(named_folder(alloc, ("x", b"f", b"none"), &[])?)?;
    Ok(MemoryFolders::new(folders))
}

/// What a folder of this name finds at `/f`, if the host gives one. It is handed back.
#[tactic(auto, using(crate::proofs::TestPaths::file))]
fn look_into<H: Host>(alloc: Global, host: &mut H, dir: &str) -> Result<Option<Look>, AllocError> {
    let Ok(mut folder) = host.folder(dir) else {
        return Ok(None);
    };
    let look = folder.look(7, b"/f");
    let mut folders = Vec::new(alloc);
    folders.push(folder)?;
    host.take_back(Kept {
        text: None,
        streams: None,
        folders,
        logs: Vec::new(alloc),
        account: None,
    });
    Ok(Some(look))
}

/// A host of the folders above, whose second call of `folder` fails, after these were looked into,
/// and what was found.
fn looked(alloc: Global, dirs: &[&str]) -> Result<(MemoryHost, Vec<Option<Look>>), AllocError> {
    let mut host = host(alloc)?.with_folders(named_folders(alloc)?, [1].to_vec(alloc)?);
    let mut found = Vec::new(alloc);
    for dir in dirs {
        found.push(look_into(alloc, &mut host, dir)?)?;
    }
    Ok((host, found))
}

#[test]
fn a_folder_comes_by_its_name(rt: HostRuntime) -> Result<(), Fail> {
    let (host, found) = looked(rt.alloc(), &["a", "b", "c", "x", "b"])?;
    let file = Look::File { len: 3, second: 0 };
    assert_eq!(rt;
        found.as_slice(),
        [Some(file), None, None, None, Some(Look::Failed)].as_slice()
    );
    let faults = [
        host.folder_faults_of("a"),
        host.folder_faults_of("b"),
        host.folder_faults_of("c"),
        host.folder_faults_of("x"),
    ];
    assert_eq!(rt; faults, [0, 1, 1, 1]);
    assert_eq!(rt; [host.folders_handed(), host.folders_returned()], [2, 2]);
    let last = host.folders().first().ok_or("back")?;
    assert_eq!(rt; last.failed(), [7].as_slice());
    Ok(())
}

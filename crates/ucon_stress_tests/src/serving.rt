//! Clients that are served at once, each in a thread of its own.

use crate::engines::printed_by;
use crate::moments::Moment;
use crate::runs::{End, over, place_before, played};
use std::alloc::Global;
use std::str;
use std::sync::Wait;
use std::test::Fail;
use std::thread::Threads;
use ucon_cascade::Monitor;
use ucon_client::{Gate, OpenGate};
use ucon_disk::MemDisk;
use ucon_top::Outcome;
use ucon_vectors::{CAPPED, Meeting, document, two_clients};

/// Client 1 has lines 11 and 12, and client 2 has 14 and 15. The first lines wait for one another, so one thread alone never gets past them;
/// client 1's second waits until client 2's first is answered, and client 2's second until client 1's second is.
#[derive(Drop)]
struct MeetingGate {
    one_tries: Moment,
    two_tries: Moment,
    two_tried: Moment,
    one_ended: Moment,
    missed: Moment,
}

impl MeetingGate {
    fn new() -> MeetingGate {
        MeetingGate {
            one_tries: Moment::new(),
            two_tries: Moment::new(),
            two_tried: Moment::new(),
            one_ended: Moment::new(),
            missed: Moment::new(),
        }
    }

    fn wait(&self, moment: &Moment) {
        if !moment.is_met() {
            self.missed.comes();
        }
    }
}

impl Gate for MeetingGate {
    fn before(&self, client: u8, line: u32) {
        match (client, line) {
            (1, 11) => {
                self.one_tries.comes();
                self.wait(&self.two_tries);
            }
            (2, 14) => {
                self.two_tries.comes();
                self.wait(&self.one_tries);
            }
            (1, 12) => self.wait(&self.two_tried),
            (2, 15) => self.wait(&self.one_ended),
            _ => self.missed.comes(),
        }
    }

    fn after(&self, client: u8, line: u32) {
        match (client, line) {
            (2, 14) => self.two_tried.comes(),
            (1, 12) => self.one_ended.comes(),
            _ => {}
        }
    }
}

/// How two clients are served at this gate, behind what client 0 made for them.
fn served_at<R: Threads + Wait + Sync>(
    rt: &R,
    alloc: Global,
    form: &str,
    meeting: &Meeting,
    gate: &MeetingGate,
) -> Result<End, Fail> {
    let made = document(alloc, meeting.policy, meeting.played)?;
    let first = played(rt, alloc, &made, b"", None)?;
    if !matches!(first.outcome, Outcome::Done) {
        return Err("client 0 is not served".into());
    }
    let served = document(alloc, meeting.policy, meeting.served)?;
    over(rt, alloc, form, &served, first.disk, gate)
}

/// One thread for all clients never gets past the first lines: the gate's turns run out.
#[test]
fn two_clients_meet(rt: HostRuntime) -> Result<(), Fail> {
    let meeting = two_clients();
    for form in ["serve", "board", "live"].as_slice() {
        let gate = MeetingGate::new();
        let end = served_at(&rt, rt.alloc(), form, &meeting, &gate)?;
        assert!(rt; matches!(end.outcome, Outcome::Done));
        assert!(rt; !gate.missed.came());
        assert!(rt;
            meeting
                .outputs
                .iter()
                .any(|text| *text == end.output.as_slice())
        );
    }
    Ok(())
}

/// What client 0 makes for the others: eight subjects and eight objects.
fn entities(alloc: Global) -> Result<String, Fail> {
    let mut script = String::from_str(alloc, "client 0\n")?;
    for n in 0..8u8 {
        script.push_str(&format!(in alloc; "subject s{n}\nobject o{n}\n")?)?;
    }
    Ok(script)
}

/// Eight clients with 200 lines each: usages of two objects, ends of their own and of others' usages, and questions.
fn eight_clients(alloc: Global) -> Result<String, Fail> {
    let mut script = String::new(alloc);
    for client in 1..9u8 {
        script.push_str(&format!(in alloc; "client {client}\n")?)?;
        for n in 0..50u8 {
            let (subject, object, session) = (client % 8, n % 2, n / 2);
            let lines = format!(in alloc;
                "try s{subject} use o{object}\nvalue o o{object} users\nend {session}\nlook {n}\n"
            )?;
            script.push_str(&lines)?;
        }
    }
    Ok(script)
}

/// Whether a reply's text tells that something changed.
fn changes(reply: &str) -> bool {
    ["ok", "permitted ", "denied ", "waiting ", "ended "]
        .iter()
        .any(|word| reply.starts_with(*word))
}

/// A served line with its answer.
#[derive(Drop)]
struct ToldLine<'a> {
    client: &'a str,
    command: &'a str,
    place: u64,
    reply: &'a str,
}

impl ToldLine<'_> {
    fn changes(&self) -> bool {
        changes(self.reply)
    }

    /// How many entries the reply stands on.
    fn stands_on(&self) -> u64 {
        if self.changes() {
            self.place.saturating_sub(1)
        } else {
            self.place
        }
    }
}

/// The lines of a script, each with its answer in the output.
fn told_lines<'a>(
    alloc: Global,
    script: &'a str,
    output: &'a str,
) -> Result<Vec<ToldLine<'a>>, Fail> {
    let mut told = Vec::new(alloc);
    let mut answers = output.lines();
    let mut client = "";
    for line in script.lines() {
        if let Some(number) = line.strip_prefix("client ") {
            client = number;
            continue;
        }
        let answer = answers.next().ok_or("a line has no answer")?;
        let (by, answer) = answer.split_once(' ').ok_or("an answer is one word")?;
        let (place, reply) = answer.split_once(' ').ok_or("an answer has no reply")?;
        if by != client {
            return Err("an answer is another client's".into());
        }
        let place = place.parse::<u64>().map_err(|_| "an answer has no place")?;
        told.push(ToldLine {
            client,
            command: line,
            place,
            reply,
        })?;
    }
    match answers.next() {
        Some(_) => Err("an answer has no line".into()),
        None => Ok(told),
    }
}

/// Each reply stands on all that its client was told before.
fn are_in_order(told: &[ToldLine<'_>]) -> bool {
    told.windows(2).all(|two| match two {
        [earlier, later] => earlier.client != later.client || earlier.place <= later.stands_on(),
        _ => true,
    })
}

/// The answers in the order of their places are what `trial` prints of their lines in this order, behind the lines of the opening history.
fn are_a_serial_run(
    alloc: Global,
    opening: &str,
    mut told: Vec<ToldLine<'_>>,
) -> Result<bool, Fail> {
    told.as_mut_slice()
        .sort_by_key(alloc, |one| (one.stands_on(), one.changes()))?;
    let mut script = String::from_str(alloc, opening)?;
    let mut output = String::new(alloc);
    for one in &told {
        script.push_str(&format!(in alloc; "client {}\n{}\n", one.client, one.command)?)?;
        output.push_str(&format!(in alloc; "{} {} {}\n", one.client, one.place, one.reply)?)?;
    }
    let printed = printed_by::<Monitor>(alloc, &document(alloc, CAPPED, script.as_bytes())?)?;
    Ok(printed.ends_with(output.as_bytes()))
}

/// Over a disk on which client 0 made what they use. The disk's calls of these numbers fail.
fn eight_served<R: Threads + Wait + Sync>(
    rt: &R,
    alloc: Global,
    form: &str,
    faults: &[u64],
) -> Result<End, Fail> {
    let played = document(alloc, CAPPED, entities(alloc)?.as_bytes())?;
    let disk = MemDisk::new(
        alloc,
        Vec::new(alloc),
        Vec::from_slice(alloc, faults)?,
        None,
    );
    let first = over(rt, alloc, "play", &played, disk, &OpenGate)?;
    let served = document(alloc, CAPPED, eight_clients(alloc)?.as_bytes())?;
    over(rt, alloc, form, &served, first.disk, &OpenGate)
}

/// The place of one step more over a journal, which is one above the number of its entries.
fn next_place<R: Threads + Wait + Sync>(rt: &R, alloc: Global, disk: MemDisk) -> Result<u64, Fail> {
    let more = document(alloc, CAPPED, b"client 0\nsubject z\n")?;
    let end = over(rt, alloc, "play", &more, disk, &OpenGate)?;
    place_before(&end.output, " ok\n")
}

/// How many of the eight clients' lines changed something, where each has its answer, each client's answers are in order, and all are those
/// of one serial run.
fn serial_steps(alloc: Global, output: &[u8]) -> Result<u64, Fail> {
    let script = eight_clients(alloc)?;
    let text = str::from_utf8(output).map_err(|_| "text")?;
    let answers = told_lines(alloc, script.as_str(), text)?;
    if answers.len() != 1600 || !are_in_order(&answers) {
        return Err("other lines, or not in order".into());
    }
    let steps = answers.iter().filter(|one| one.changes()).count();
    if !are_a_serial_run(alloc, entities(alloc)?.as_str(), answers)? {
        return Err("no serial run".into());
    }
    Ok(steps as u64)
}

#[test]
fn eight_clients_have_one_history(rt: HostRuntime) -> Result<(), Fail> {
    for form in ["serve", "board", "live"].as_slice() {
        let end = eight_served(&rt, rt.alloc(), form, &[])?;
        assert!(rt; matches!(end.outcome, Outcome::Done));
        let steps = serial_steps(rt.alloc(), &end.output)?;
        assert!(rt; next_place(&rt, rt.alloc(), end.disk)? == steps.saturating_add(17));
    }
    Ok(())
}

/// Whether behind an answer that the disk failed, or had failed, a client is answered nothing else.
fn stays_stopped(output: &str) -> bool {
    let mut before = ("", false);
    for line in output.lines() {
        let Some((client, answer)) = line.split_once(' ') else {
            return false;
        };
        if before == (client, true) && answer != "- stopped" {
            return false;
        }
        before = (client, answer == "- stopped" || answer == "- disk fault");
    }
    true
}

/// How many lines end so.
fn ending(text: &str, end: &str) -> usize {
    text.lines().filter(|line| line.ends_with(end)).count()
}

/// How many lines are changing replies, where one line met the fault and all behind it are stopped.
fn steps_until_the_fault(output: &[u8]) -> Result<u64, Fail> {
    let text = str::from_utf8(output).map_err(|_| "text")?;
    if text.lines().count() != 1600 || ending(text, "- disk fault") != 1 {
        return Err("other lines, or another number of faults".into());
    }
    if ending(text, "- stopped") == 0 || !stays_stopped(text) {
        return Err("not all are stopped".into());
    }
    Ok(text.lines().filter(|line| is_step(line)).count() as u64)
}

/// The disk fails in the midst of the lines. Whether the step that met it counts shows at the next opening.
#[test]
fn one_disk_fault_stops_everybody(rt: HostRuntime) -> Result<(), Fail> {
    for form in ["serve", "board", "live"].as_slice() {
        let end = eight_served(&rt, rt.alloc(), form, &[700])?;
        assert!(rt; matches!(end.outcome, Outcome::DiskFault));
        let placed = steps_until_the_fault(&end.output)?;
        let next = next_place(&rt, rt.alloc(), end.disk)?;
        assert!(rt; next == placed.saturating_add(17) || next == placed.saturating_add(18));
    }
    Ok(())
}

/// Whether a line of output is a changing reply.
fn is_step(line: &str) -> bool {
    match line
        .split_once(' ')
        .and_then(|(_, answer)| answer.split_once(' '))
    {
        Some((_, reply)) => changes(reply),
        None => false,
    }
}

//! Texts that no script of today shows.
use pk_base::{
    Act, Counted, Entity, Entry, Items, Name, NoMemory, Point, Refusal, Reply, Tag, TagList,
};
use script_text::{
    EntryList, Line, LineSaid, Order, Report, SaidList, Script, ScriptNo, Text, read_script,
    report_text,
};
use std::alloc::Global;
use std::test::Fail;

/// The text of the report of one thread and one partition with these lines and entries.
fn report_of(alloc: Global, lines: Vec<Line>, entries: Vec<Entry>) -> Result<Text, NoMemory> {
    let report = Report {
        n: 1,
        last: 1,
        threads: Items::of(vec![in alloc; SaidList::of(lines)]?),
        journals: Items::of(vec![in alloc; EntryList::of(entries)]?),
    };
    report_text(alloc, &report)
}

// Each command, as a report prints it, also those that no program carries out yet.
const COMMANDS: [&str; 30] = [
    "mvfs -5 0 1048576",
    "mev 65 1 2 3",
    "mef 65 66",
    "mekr 65 66",
    "mfkrh 65",
    "kvfs 65",
    "kev 65",
    "kef 65",
    "kemr 65",
    "kfmrh 65 66",
    "ringmove 65 66",
    "lamina -2 0 0 7 -1 3 8",
    "block 0 1 2 4 5 6",
    "prism -2 9 0 0 7 -1 3 8",
    "sweep 65 4 5 -6",
    "move 65 4 5 -6",
    "turn 65 z 9223372036854775807",
    "delete 65",
    "set 65 colour_2 -9",
    "drop 65 abcdefghijklmnop",
    "ask 65",
    "kids 65",
    "ring 65",
    "counts 65",
    "bodies",
    "mark",
    "goto 70",
    "unmark 70",
    "marks",
    "delta 4294967295",
];

/// The act of the first line of a script.
fn act_of(script: &Script) -> Option<&Act> {
    let lines = script.threads.as_slice().first()?;
    match &lines.as_slice().first()?.order {
        Order::On { act, .. } => Some(act),
        Order::Lock(_) | Order::Unlock(_) | Order::End => None,
    }
}

/// Whether the command is read, and printed as it was.
fn is_printed_back(alloc: Global, command: &str) -> Result<bool, ScriptNo> {
    let script = format!(in alloc; "session 1 1\nthread\n1 {command}\nend\n")?;
    let wanted = format!(in alloc; "report 1 1\nthread 1\npartition 1\ndid 1 {command}\nend\n")?;
    let script = read_script(alloc, script.as_bytes())?;
    let Some(act) = act_of(&script) else {
        return Ok(false);
    };
    let did = Entry::Did {
        thread: 1,
        act: act.copy(alloc)?,
    };
    let text = report_of(alloc, Vec::new(alloc), vec![in alloc; did]?)?;
    Ok(text.as_slice() == wanted.as_bytes())
}

#[test]
fn commands_are_read_and_printed_back(rt: HostRuntime) -> Result<(), Fail> {
    let alloc = rt.alloc();
    for command in COMMANDS {
        assert!(rt; is_printed_back(alloc, command)?, "{command}");
    }
    Ok(())
}

/// Whether a line that is told this is printed so.
fn is_said_as(alloc: Global, said: LineSaid, wanted: &str) -> Result<bool, NoMemory> {
    let wanted = format!(in alloc; "report 1 1\nthread 1\n3 {wanted}\npartition 1\nend\n")?;
    let line = Line { number: 3, said };
    let text = report_of(alloc, vec![in alloc; line]?, Vec::new(alloc))?;
    Ok(text.as_slice() == wanted.as_bytes())
}

// An entity of each class, and a loop with fins and one without.
const ENTITIES: [(Entity, &str); 9] = [
    (Entity::Body { shell: Tag(66) }, "is body shell 66"),
    (
        Entity::Shell {
            body: Tag(65),
            q: -1,
        },
        "is shell body 65 q -1",
    ),
    (
        Entity::Face {
            shell: Tag(66),
            outer: Tag(68),
        },
        "is face shell 66 outer 68",
    ),
    (
        Entity::Loop {
            face: Tag(67),
            first: Some(Tag(72)),
            lone: None,
        },
        "is loop face 67 first 72 lone -",
    ),
    (
        Entity::Loop {
            face: Tag(67),
            first: None,
            lone: Some(Tag(69)),
        },
        "is loop face 67 first - lone 69",
    ),
    (
        Entity::Edge {
            body: Tag(65),
            fin: Tag(72),
        },
        "is edge body 65 fin 72",
    ),
    (
        Entity::Vertex {
            body: Tag(65),
            point: Point { x: 1, y: -2, z: 0 },
        },
        "is vertex body 65 at 1 -2 0",
    ),
    (
        Entity::Fin {
            loop_: Tag(68),
            next: Tag(71),
            prev: Tag(72),
            mate: Tag(73),
            edge: Tag(74),
            vertex: Tag(69),
        },
        "is fin loop 68 next 71 prev 72 mate 73 edge 74 vertex 69",
    ),
    (
        Entity::Attr {
            owner: Tag(65),
            name: Name(*b"k_top\0\0\0\0\0\0\0\0\0\0\0"),
            value: -5,
        },
        "is attr owner 65 name k_top value -5",
    ),
];

// Refusals of calls that are not carried out yet.
const REFUSALS: [(Refusal, &str); 3] = [
    (Refusal::CornerCount(257), "refused 14 CornerCount 257"),
    (Refusal::BadPolygon(3), "refused 15 BadPolygon 3"),
    (Refusal::FlatSweep, "refused 16 FlatSweep"),
];

#[test]
fn answers_to_later_calls_have_their_texts(rt: HostRuntime) -> Result<(), Fail> {
    let alloc = rt.alloc();
    for (entity, wanted) in ENTITIES {
        assert!(rt;
            is_said_as(alloc, LineSaid::Answer(Reply::Is(entity)), wanted)?,
            "{wanted}"
        );
    }
    for (refusal, wanted) in REFUSALS {
        assert!(rt;
            is_said_as(alloc, LineSaid::Refused(refusal), wanted)?,
            "{wanted}"
        );
    }
    let tags = TagList::of(vec![in alloc; Tag(65), Tag(123)]?);
    let list = LineSaid::Answer(Reply::List(tags));
    assert!(rt; is_said_as(alloc, list, "list 65 123")?);
    let counts = LineSaid::Answer(Reply::Counts(Counted {
        vertices: 8,
        edges: 12,
        faces: 6,
        rings: 0,
        q: 1,
    }));
    assert!(rt; is_said_as(alloc, counts, "counts 8 12 6 0 1")?);
    Ok(())
}

use crate::case::Part;
use crate::fault::CaseError;
use std::alloc::Global;
use std::num::NonZeroUsize;

// For how many bytes there is room, where no line says so.
const ROOM: usize = 65_536;

/// How a source in memory gives the script, and a sink in memory takes the report.
#[derive(Debug, Drop)]
pub(crate) struct Outside {
    /// The numbers of the reads that fail, from 1.
    pub(crate) failing_reads: Vec<u32>,
    /// The numbers of the writes that fail, from 1.
    pub(crate) failing_writes: Vec<u32>,
    /// How many bytes a read gives at most.
    pub(crate) gives: NonZeroUsize,
    /// How many bytes a write takes at most.
    pub(crate) takes: NonZeroUsize,
    /// How many bytes can be written.
    pub(crate) room: usize,
}

/// What a line says.
enum Setting {
    ReadFails(u32),
    WriteFails(u32),
    Gives(NonZeroUsize),
    Takes(NonZeroUsize),
    Room(usize),
}

impl Outside {
    /// Reads the lines of a text. Where no line says otherwise no read and no write fails, each
    /// moves as many bytes as it may, and there is room for 65,536 bytes.
    pub(crate) fn of_text(alloc: Global, text: &str) -> Result<Outside, CaseError> {
        let mut outside = Outside {
            failing_reads: Vec::new(alloc),
            failing_writes: Vec::new(alloc),
            gives: NonZeroUsize::MAX,
            takes: NonZeroUsize::MAX,
            room: ROOM,
        };
        for (at, line) in text.lines().enumerate() {
            let Some(setting) = setting_of(line) else {
                return Err(CaseError::BadLine(Part::Outside, at.saturating_add(1)));
            };
            outside.set(setting)?;
        }
        Ok(outside)
    }

    fn set(&mut self, setting: Setting) -> Result<(), CaseError> {
        match setting {
            Setting::ReadFails(number) => self.failing_reads.push(number)?,
            Setting::WriteFails(number) => self.failing_writes.push(number)?,
            Setting::Gives(most) => self.gives = most,
            Setting::Takes(most) => self.takes = most,
            Setting::Room(room) => self.room = room,
        }
        Ok(())
    }
}

/// What a line says: a few words, and a number behind them.
fn setting_of(line: &str) -> Option<Setting> {
    let (words, number) = line.rsplit_once(' ')?;
    match words {
        "reads fail" => Some(Setting::ReadFails(number.parse().ok()?)),
        "writes fail" => Some(Setting::WriteFails(number.parse().ok()?)),
        "gives" => Some(Setting::Gives(number.parse().ok()?)),
        "takes" => Some(Setting::Takes(number.parse().ok()?)),
        "room" => Some(Setting::Room(number.parse().ok()?)),
        _ => None,
    }
}

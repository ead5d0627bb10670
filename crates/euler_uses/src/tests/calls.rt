//! The calls, with their tags and numbers as they are written in a script.
use pk_base::{Call, Name, Tag, Triple};

pub fn mvfs(x: i64, y: i64, z: i64) -> Call {
    Call::Mvfs {
        at: Triple { x, y, z },
    }
}

pub fn mev(end: u32, x: i64, y: i64, z: i64) -> Call {
    Call::Mev {
        end: Tag(end),
        at: Triple { x, y, z },
    }
}

pub fn mef(from: u32, to: u32) -> Call {
    Call::Mef {
        from: Tag(from),
        to: Tag(to),
    }
}

pub fn mfkrh(ring: u32) -> Call {
    Call::Mfkrh { ring: Tag(ring) }
}

pub fn kemr(fin: u32) -> Call {
    Call::Kemr { fin: Tag(fin) }
}

pub fn kfmrh(keep: u32, kill: u32) -> Call {
    Call::Kfmrh {
        keep: Tag(keep),
        kill: Tag(kill),
    }
}

pub fn ringmove(ring: u32, to: u32) -> Call {
    Call::RingMove {
        ring: Tag(ring),
        to: Tag(to),
    }
}

/// The name of this one letter.
pub fn named(letter: u8) -> Name {
    let mut bytes = [0; 16];
    bytes[0] = letter;
    Name(bytes)
}

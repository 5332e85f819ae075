// What the numbers of a log's records mean, in words.
#![tactic(auto)]

use std::fmt;

// A number, since a mender's list, which a host in C is given too, has them as such.
#[derive(Clone, Copy)]
pub struct Meaning(pub u64);

impl fmt::Display for Meaning {
    fn fmt<W: fmt::Write>(&self, f: &mut fmt::Formatter<W>) -> fmt::Result {
        f.write_str(match self.0 {
            1 => "settings out of range: T is 50 to 1000, J and L are 1 to 99, solo is 0 or 1",
            3 => "kind or key not allowed",
            4 => "stamp above the largest, 1000000000000",
            5 => "stamp before the last accepted one",
            6 => "log empty, or header or body cut",
            7 =>
                "tag unknown, length wrong, settings missing first or met again, or a list of pairs not straight after them",
            11 => "press of a new key while 6 are held",
            12 =>
                "list of pairs: T_s is 50 to 1000, N is 1 to 99, at most 64 pairs, none twice, of two keys 0 to 30 and a character",
            14 => "list of pairs: there is no second opinion on two letters as a chord",
            _ => "refused",
        })
    }
}

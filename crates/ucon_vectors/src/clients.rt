//! Two clients that meet, for `serve`.

use crate::worked::CAPPED;

/// What is played first, what is served then, and the outputs of which one is printed.
#[derive(Clone, Copy)]
pub struct Meeting {
    pub policy: &'static [u8],
    /// What stands behind the divider of the document that is played.
    pub played: &'static [u8],
    /// What stands behind the divider of the document that is served.
    pub served: &'static [u8],
    /// Where client 1 tried first, and where client 2 did.
    pub outputs: [&'static [u8]; 2],
}

/// Clients 1 and 2 try at once. Client 1 ends session 1 when both were answered, and client 2 asks how many users there are when that was. So a
/// gate has to hold lines: each client's first until the other's has come. It holds client 1's second until client 2's first was answered, and
/// client 2's second until client 1's second was.
pub fn two_clients() -> Meeting {
    Meeting {
        policy: CAPPED,
        played: b"client 0
subject a
subject b
subject c
subject d
object x
",
        served: b"client 1
try a use x
end 1
client 2
try b use x
value o x users
",
        outputs: [
            b"1 6 permitted 1
1 8 ended 1
2 7 permitted 2
2 8 value 1
",
            b"1 7 permitted 2
1 7 not yours
2 6 permitted 1
2 7 value 2
",
        ],
    }
}

//! Which roles send and get which kind of message.

ghost use Rattle.std.specs.Prelude.{◌≡◌};
ghost use Rattle.cx_letter.specs.Letter.{is_kind, senders, receivers, is_listed};

// Each kind of message with the code of a role that sends it.
const SENDERS: [(u8, u8); 39] = [
    (1, 1),
    (2, 2),
    (3, 3),
    (4, 3),
    (5, 6),
    (6, 6),
    (7, 3),
    (8, 5),
    (9, 5),
    (10, 3),
    (11, 4),
    (12, 5),
    (13, 4),
    (13, 7),
    (14, 4),
    (15, 7),
    (16, 8),
    (17, 7),
    (18, 7),
    (19, 3),
    (20, 5),
    (21, 3),
    (22, 6),
    (23, 1),
    (24, 9),
    (25, 6),
    (26, 9),
    (27, 5),
    (28, 9),
    (29, 7),
    (30, 10),
    (31, 6),
    (32, 6),
    (33, 10),
    (34, 6),
    (35, 10),
    (36, 6),
    (37, 10),
    (38, 1),
];

// Each kind of message with the code of a role that gets it.
const RECEIVERS: [(u8, u8); 40] = [
    (1, 2),
    (2, 3),
    (3, 2),
    (4, 6),
    (5, 3),
    (6, 3),
    (7, 5),
    (8, 3),
    (9, 3),
    (10, 4),
    (11, 5),
    (12, 4),
    (13, 7),
    (14, 3),
    (15, 8),
    (16, 1),
    (17, 3),
    (18, 7),
    (19, 5),
    (20, 3),
    (21, 6),
    (22, 3),
    (23, 9),
    (24, 6),
    (25, 9),
    (26, 5),
    (27, 9),
    (28, 7),
    (29, 1),
    (30, 6),
    (31, 10),
    (32, 10),
    (33, 6),
    (34, 10),
    (35, 6),
    (36, 10),
    (37, 3),
    (37, 9),
    (37, 10),
    (38, 7),
];

/// Whether there is such a kind of message.
pub fn is_kind(kind: u8) -> bool
    ensures { result ≡ is_kind kind }
{
    kind >= 1 && kind <= 38
}

// Whether a kind is in a list with this code.
fn is_listed(pairs: &[(u8, u8)], kind: u8, code: u8) -> bool
    ensures { result ≡ is_listed pairs.now kind code }
{
    pairs.iter().any(|pair| pair.0 == kind && pair.1 == code)
}

/// Whether a role of this code sends this kind of message.
pub fn may_send(kind: u8, code: u8) -> bool
    ensures { result ≡ is_listed senders kind code }
{
    is_listed(&SENDERS, kind, code)
}

/// Whether a role of this code gets this kind of message.
pub fn may_receive(kind: u8, code: u8) -> bool
    ensures { result ≡ is_listed receivers kind code }
{
    is_listed(&RECEIVERS, kind, code)
}

use super::{bare, refusal};
use records::read::read_record;
use records::write::write_record;
use std::process::Abort;
use std::test::Fail;
use wire::message::{Kind, Message};

const READ_REQUEST: [u8; 80] = [
    1, 3, 2, 0, 2, 0, 0, 0, 0, 0, 0, 0, 0, 0, 0, 0, //
    0, 0, 0, 0, 0, 0, 0, 0, 0, 0, 0, 0, 0, 0, 0, 0, //
    0, 0, 0, 0, 0, 0, 0, 0, 0, 0, 0, 0, 0, 0, 0, 0, //
    0, 0, 0, 0, 0, 0, 0, 0, 0, 0, 0, 0, 0, 0, 0, 0, //
    0, 0, 0, 0, 0, 0, 0, 0, 0, 0, 0, 0, 0, 0, 0, 0,
];

// passed on fourteen times
const WRITE_REQUEST: [u8; 80] = [
    2, 15, 5, 9, 14, 14, 0, 0, 0, 0, 0, 0, 0, 0, 0, 0, //
    0, 0, 0, 0, 0, 0, 0, 0, 0, 0, 0, 0, 0, 0, 0, 0, //
    0, 0, 0, 0, 0, 0, 0, 0, 0, 0, 0, 0, 0, 0, 0, 0, //
    0, 0, 0, 0, 0, 0, 0, 0, 0, 0, 0, 0, 0, 0, 0, 0, //
    0, 0, 0, 0, 0, 0, 0, 0, 0, 0, 0, 0, 0, 0, 0, 0,
];

// words 0, 7 and 15 are deadbeef, 80000000 and 1
const COPY: [u8; 80] = [
    3, 0, 9, 4, 4, 3, 0, 0, 0, 0, 0, 0, 0, 0, 0, 0, //
    0xef, 0xbe, 0xad, 0xde, 0, 0, 0, 0, 0, 0, 0, 0, 0, 0, 0, 0, //
    0, 0, 0, 0, 0, 0, 0, 0, 0, 0, 0, 0, 0, 0, 0, 0x80, //
    0, 0, 0, 0, 0, 0, 0, 0, 0, 0, 0, 0, 0, 0, 0, 0, //
    0, 0, 0, 0, 0, 0, 0, 0, 0, 0, 0, 0, 1, 0, 0, 0,
];

// boards 0, 3, 8 and 15 have copies; word 1 is 01020304
const GRANT: [u8; 80] = [
    4, 7, 15, 6, 6, 1, 0x09, 0x81, 0, 0, 0, 0, 0, 0, 0, 0, //
    0, 0, 0, 0, 4, 3, 2, 1, 0, 0, 0, 0, 0, 0, 0, 0, //
    0, 0, 0, 0, 0, 0, 0, 0, 0, 0, 0, 0, 0, 0, 0, 0, //
    0, 0, 0, 0, 0, 0, 0, 0, 0, 0, 0, 0, 0, 0, 0, 0, //
    0, 0, 0, 0, 0, 0, 0, 0, 0, 0, 0, 0, 0, 0, 0, 0,
];

const INVALIDATE: [u8; 80] = [
    5, 2, 3, 11, 3, 0, 0, 0, 0, 0, 0, 0, 0, 0, 0, 0, //
    0, 0, 0, 0, 0, 0, 0, 0, 0, 0, 0, 0, 0, 0, 0, 0, //
    0, 0, 0, 0, 0, 0, 0, 0, 0, 0, 0, 0, 0, 0, 0, 0, //
    0, 0, 0, 0, 0, 0, 0, 0, 0, 0, 0, 0, 0, 0, 0, 0, //
    0, 0, 0, 0, 0, 0, 0, 0, 0, 0, 0, 0, 0, 0, 0, 0,
];

const ACKNOWLEDGEMENT: [u8; 80] = [
    6, 2, 11, 3, 3, 0, 0, 0, 0, 0, 0, 0, 0, 0, 0, 0, //
    0, 0, 0, 0, 0, 0, 0, 0, 0, 0, 0, 0, 0, 0, 0, 0, //
    0, 0, 0, 0, 0, 0, 0, 0, 0, 0, 0, 0, 0, 0, 0, 0, //
    0, 0, 0, 0, 0, 0, 0, 0, 0, 0, 0, 0, 0, 0, 0, 0, //
    0, 0, 0, 0, 0, 0, 0, 0, 0, 0, 0, 0, 0, 0, 0, 0,
];

fn copy() -> Message {
    let mut message = bare(Kind::Copy, 0, 9, 4, 4, 3);
    message.words[0] = 0xdead_beef;
    message.words[7] = 0x8000_0000;
    message.words[15] = 1;
    message
}

fn grant() -> Message {
    let mut message = bare(Kind::Grant, 7, 15, 6, 6, 1);
    for board in [0, 3, 8, 15] {
        message.copies.insert(board);
    }
    message.words[1] = 0x0102_0304;
    message
}

/// A message is written as its record, and read from it.
fn expect(rt: &impl Abort, message: Message, record: [u8; 80]) -> Result<(), Fail> {
    let mut out = [0xaa; 80];
    write_record(&message, &mut out)?;
    assert!(rt; out == record);
    assert_eq!(rt; read_record(&record)?, message);
    Ok(())
}

#[test]
fn each_kind(rt: HostRuntime) -> Result<(), Fail> {
    expect(&rt, bare(Kind::ReadRequest, 3, 2, 0, 2, 0), READ_REQUEST)?;
    expect(
        &rt,
        bare(Kind::WriteRequest, 15, 5, 9, 14, 14),
        WRITE_REQUEST,
    )?;
    expect(&rt, copy(), COPY)?;
    expect(&rt, grant(), GRANT)?;
    expect(&rt, bare(Kind::Invalidate, 2, 3, 11, 3, 0), INVALIDATE)?;
    expect(
        &rt,
        bare(Kind::Acknowledgement, 2, 11, 3, 3, 0),
        ACKNOWLEDGEMENT,
    )
}

/// A record is refused with a number; where that is 0, it is read, and written back.
fn expect_number(rt: &impl Abort, record: [u8; 80], number: u16) -> Result<(), Fail> {
    match read_record(&record) {
        Ok(message) => {
            assert_eq!(rt; 0, number);
            let mut out = [0xaa; 80];
            write_record(&message, &mut out)?;
            assert!(rt; out == record);
            Ok(())
        }
        Err(fault) => {
            assert_eq!(rt; u16::from(fault), number);
            Ok(())
        }
    }
}

/// Damages each byte in turn. Its refusal is a number for each byte of the head, one for all bytes of words, and 0 where it is
/// another record.
fn expect_damages<D: Fn(u8) -> u8>(
    rt: &impl Abort,
    record: [u8; 80],
    damage: D,
    head: [u16; 16],
    word: u16,
) -> Result<(), Fail>
    requires { D.IsAlwaysCallable damage }
{
    for (place, byte) in record.iter().enumerate() {
        let mut damaged = record;
        damaged[place] = damage(*byte);
        let number = head.get(place).copied().unwrap_or(word);
        expect_number(rt, damaged, number)?;
    }
    Ok(())
}

#[test]
fn bytes_of_ones(rt: HostRuntime) -> Result<(), Fail> {
    // 255 is no kind, board, page or number of hops; a grant may name the boards 8 to 15, and not its receiver 6
    let head = [
        11, 13, 12, 12, 12, 13, 14, 14, 14, 14, 14, 14, 14, 14, 14, 14,
    ];
    let of_grant = [
        11, 13, 12, 12, 12, 13, 14, 0, 14, 14, 14, 14, 14, 14, 14, 14,
    ];
    let ones = |_: u8| 255u8;
    expect_damages(&rt, READ_REQUEST, ones, head, 14)?;
    expect_damages(&rt, WRITE_REQUEST, ones, head, 14)?;
    expect_damages(&rt, COPY, ones, head, 0)?;
    expect_damages(&rt, GRANT, ones, of_grant, 0)?;
    expect_damages(&rt, INVALIDATE, ones, head, 14)?;
    expect_damages(&rt, ACKNOWLEDGEMENT, ones, head, 14)
}

#[test]
fn bytes_off_by_one(rt: HostRuntime) -> Result<(), Fail> {
    // the kind becomes 0, 3, 2, 5, 4 or 7
    let of_read_request = [11, 0, 0, 0, 0, 0, 14, 14, 14, 14, 14, 14, 14, 14, 14, 14];
    let of_write_request = [14, 0, 0, 0, 0, 13, 14, 14, 14, 14, 14, 14, 14, 14, 14, 14];
    let of_copy = [14, 0, 0, 14, 14, 0, 14, 14, 14, 14, 14, 14, 14, 14, 14, 14];
    let of_grant = [14, 0, 0, 14, 14, 0, 0, 0, 14, 14, 14, 14, 14, 14, 14, 14];
    let of_invalidate = [14, 0, 14, 0, 14, 14, 14, 14, 14, 14, 14, 14, 14, 14, 14, 14];
    let of_acknowledgement = [11, 0, 0, 14, 14, 14, 14, 14, 14, 14, 14, 14, 14, 14, 14, 14];
    let turned = |byte: u8| byte ^ 1;
    expect_damages(&rt, READ_REQUEST, turned, of_read_request, 14)?;
    expect_damages(&rt, WRITE_REQUEST, turned, of_write_request, 14)?;
    expect_damages(&rt, COPY, turned, of_copy, 0)?;
    expect_damages(&rt, GRANT, turned, of_grant, 0)?;
    expect_damages(&rt, INVALIDATE, turned, of_invalidate, 14)?;
    expect_damages(&rt, ACKNOWLEDGEMENT, turned, of_acknowledgement, 14)
}

#[test]
fn first_question_answers(rt: HostRuntime) {
    // place, byte, refusal: every line makes one more of the earlier questions be answered yes
    let mut record = [255; 80];
    assert_eq!(rt; refusal(read_record(&record[0..79])), 10);
    assert_eq!(rt; refusal(read_record(&record)), 11);
    let mends: [(usize, u8, u16); 8] = [
        (0, 7, 11),
        (0, 4, 12),
        (2, 5, 12),
        (3, 5, 12),
        (4, 6, 12),
        (2, 4, 13),
        (1, 15, 13),
        (5, 14, 14),
    ];
    for (place, byte, number) in mends {
        if let Some(damaged) = record.get_mut(place) {
            *damaged = byte;
        }
        assert_eq!(rt; refusal(read_record(&record)), number);
    }
}

#[test]
fn other_lengths(rt: HostRuntime) {
    let mut long = [0; 100];
    long[0..80].copy_from_slice(&GRANT);
    for len in 0..100usize {
        let number = if len == 80 { 0 } else { 10 };
        assert_eq!(rt; refusal(read_record(&long[0..len])), number);
        let mut out = [0xaa; 100];
        assert_eq!(rt; refusal(write_record(&grant(), &mut out[0..len])), number);
        assert!(rt; len == 80 || out == [0xaa; 100]);
    }
}

/// A message is refused, and the buffer is as it was.
fn expect_refused(rt: &impl Abort, message: Message, number: u16) {
    let mut out = [0xaa; 80];
    assert_eq!(rt; refusal(write_record(&message, &mut out)), number);
    assert!(rt; out == [0xaa; 80]);
}

#[test]
fn messages_out_of_form(rt: HostRuntime) {
    expect_refused(&rt, bare(Kind::ReadRequest, 0, 16, 0, 2, 0), 12);
    expect_refused(&rt, bare(Kind::ReadRequest, 0, 2, 16, 2, 0), 12);
    expect_refused(&rt, bare(Kind::ReadRequest, 0, 2, 0, 16, 0), 12);
    expect_refused(&rt, bare(Kind::ReadRequest, 99, 2, 2, 2, 99), 12);
    expect_refused(&rt, bare(Kind::ReadRequest, 16, 2, 0, 2, 0), 13);
    expect_refused(&rt, bare(Kind::ReadRequest, 256, 2, 0, 2, 0), 13);
    expect_refused(&rt, bare(Kind::WriteRequest, 0, 2, 0, 2, 15), 13);
    expect_refused(&rt, bare(Kind::Copy, 0, 2, 0, 2, 0), 14);
    expect_refused(&rt, bare(Kind::Grant, 0, 2, 0, 2, 0), 14);
    expect_refused(&rt, bare(Kind::Invalidate, 0, 2, 0, 0, 0), 14);
    expect_refused(&rt, bare(Kind::Invalidate, 0, 2, 0, 2, 1), 14);
    expect_refused(&rt, bare(Kind::Acknowledgement, 0, 2, 0, 2, 0), 14);
    expect_refused(&rt, bare(Kind::Acknowledgement, 0, 2, 0, 0, 14), 14);
}

/// What a message of each kind is refused with when it has a word, a copy set, and a copy set with its receiver.
fn expect_load(rt: &impl Abort, message: Message, word: u16, set: u16, receiver: u16) {
    let mut out = [0; 80];
    let mut worded = message;
    worded.words[15] = 1;
    assert_eq!(rt; refusal(write_record(&worded, &mut out)), word);
    let mut sharing = message;
    sharing.copies.insert(15);
    assert_eq!(rt; refusal(write_record(&sharing, &mut out)), set);
    let mut to_member = message;
    to_member.copies.insert(message.to);
    assert_eq!(rt; refusal(write_record(&to_member, &mut out)), receiver);
}

#[test]
fn words_and_sets(rt: HostRuntime) {
    expect_load(&rt, bare(Kind::ReadRequest, 0, 2, 1, 2, 0), 14, 14, 14);
    expect_load(&rt, bare(Kind::WriteRequest, 0, 2, 1, 2, 0), 14, 14, 14);
    expect_load(&rt, bare(Kind::Copy, 0, 2, 1, 1, 0), 0, 14, 14);
    expect_load(&rt, bare(Kind::Grant, 0, 2, 1, 1, 0), 0, 0, 14);
    expect_load(&rt, bare(Kind::Invalidate, 0, 2, 1, 2, 0), 14, 14, 14);
    expect_load(&rt, bare(Kind::Acknowledgement, 0, 2, 1, 1, 0), 14, 14, 14);
}

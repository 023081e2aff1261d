use script::play::listing_of;
use std::alloc::Global;
use std::process::Abort;
use std::test::Fail;

/// Plays a script and compares its listing with what the rules give.
fn expect(rt: &impl Abort, heap: Global, script: &[u8], listing: &[u8]) -> Result<(), Fail> {
    let played = listing_of(heap, script)?;
    assert!(rt; played.as_slice() == listing, "{}", script.escape_ascii());
    Ok(())
}

/// The same of many scripts, each with its listing.
fn expect_each(rt: &impl Abort, heap: Global, cases: &[(&str, &str)]) -> Result<(), Fail> {
    for (script, listing) in cases {
        expect(rt, heap, script.as_bytes(), listing.as_bytes())?;
    }
    Ok(())
}

#[test]
fn good_kits(rt: HostRuntime) -> Result<(), Fail> {
    let cases = [
        ("K0100100000000 \n", "A01001000000000\n"),
        ("K0200100000000 \n", "A02001000000000\n"),
        ("K1601600000001 \n", "A16016000000010\n"),
        ("K0901000000001 \n", "A09010000000010\n"),
        ("K1600100000000 \n", "A16001000000000\n"),
    ];
    expect_each(&rt, rt.alloc(), &cases)
}

#[test]
fn refused_kits(rt: HostRuntime) -> Result<(), Fail> {
    // a refused K ends the program: the P behind it gets no answer
    let cases = [
        ("K0000100000000 \nP0000000000001 \n", "X00004000000000\n"),
        ("K1700100000000 \nP0000000000001 \n", "X00004000000000\n"),
        ("K9900100000000 \nP0000000000001 \n", "X00004000000000\n"),
        ("K0200000000000 \nP0000000000001 \n", "X00005000000000\n"),
        ("K0201700000000 \nP0000000000001 \n", "X00005000000000\n"),
        ("K0299900000001 \nP0000000000001 \n", "X00005000000000\n"),
        ("K0000000000000 \nP0000000000001 \n", "X00004000000000\n"),
        ("K9999900000001 \nP0000000000001 \n", "X00004000000000\n"),
    ];
    expect_each(&rt, rt.alloc(), &cases)
}

#[test]
fn kits_of_broken_form(rt: HostRuntime) -> Result<(), Fail> {
    let scripts = [
        "K0200100000002 \nP0000000000001 \n",
        "K02001ffffffff \nP0000000000001 \n",
        "K0200110000000 \nP0000000000001 \n",
        "K020010000000A \nP0000000000001 \n",
        "K0200100000000\nP0000000000001 \n",
        "K0200100000000\r\nP0000000000001 \n",
        "K0200100000000\t\nP0000000000001 \n",
        "K0200100000000  P0000000000001 \n",
        "Ka200100000000 \nP0000000000001 \n",
        "K0a00100000000 \nP0000000000001 \n",
        "K 200100000000 \nP0000000000001 \n",
        "K02f0100000000 \nP0000000000001 \n",
        "K020-100000000 \nP0000000000001 \n",
        "K0200:00000000 \nP0000000000001 \n",
        "K020010000000g \nP0000000000001 \n",
        "K0200100x00001 \nP0000000000001 \n",
        "K02001 0000000 \nP0000000000001 \n",
        "K0000100000002 \nP0000000000001 \n",
        "KKKKKKKKKKKKKKKKP0000000000001 \n",
    ];
    for script in scripts {
        expect(&rt, rt.alloc(), script.as_bytes(), b"X00017000000000\n")?;
    }
    Ok(())
}

#[test]
fn before_a_kit(rt: HostRuntime) -> Result<(), Fail> {
    // other letters do not belong until a kit is made, and play goes on after them
    let cases = [
        (
            "P0000000000001 \nK0200100000000 \n",
            "X00018000000000\nA02001000000000\n",
        ),
        (
            "L0000000000000 \nK0200100000000 \n",
            "X00018000000000\nA02001000000000\n",
        ),
        (
            "S0000000000001 \nK0200100000000 \n",
            "X00018000000000\nA02001000000000\n",
        ),
        (
            "D0099900000000 \nK0200100000000 \n",
            "X00018000000000\nA02001000000000\n",
        ),
        (
            "k0200100000000 \nK0200100000000 \n",
            "X00017000000000\nA02001000000000\n",
        ),
        (
            "Q0000000000000 \nK0200100000000 \n",
            "X00017000000000\nA02001000000000\n",
        ),
        (
            "P0100000000001 \nK0200100000000 \n",
            "X00017000000000\nA02001000000000\n",
        ),
        (
            "                K0200100000000 \n",
            "X00017000000000\nA02001000000000\n",
        ),
    ];
    expect_each(&rt, rt.alloc(), &cases)
}

/// The same of records between a kit and a place, each with its answer.
fn expect_inside(rt: &impl Abort, heap: Global, cases: &[(&str, &str)]) -> Result<(), Fail> {
    for (record, answer) in cases {
        let script = format!(in heap; "K0200100000000 \n{record}P0000100000007 \n")?;
        let listing = format!(in heap; "A02001000000000\n{answer}A00001000000070\n")?;
        expect(rt, heap, script.as_bytes(), listing.as_bytes())?;
    }
    Ok(())
}

#[test]
fn places(rt: HostRuntime) -> Result<(), Fail> {
    // behind K0200100000000: addresses 0 to 15
    let cases = [
        ("P000030000002a \n", "A000030000002a0\n"),
        ("P00000deadbeef \n", "A00000deadbeef0\n"),
        ("P00015ffffffff \n", "A00015ffffffff0\n"),
        ("P0001600000001 \n", "X00002000000000\n"),
        ("P0099900000001 \n", "X00002000000000\n"),
        ("P0100000000001 \n", "X00017000000000\n"),
        ("P9999900000001 \n", "X00017000000000\n"),
        ("P00003DEADBEEF \n", "X00017000000000\n"),
        ("P00a0300000001 \n", "X00017000000000\n"),
        ("P0000300000001\r\n", "X00017000000000\n"),
        ("P0000300000001\n\n", "X00017000000000\n"),
        ("p0000300000001 \n", "X00017000000000\n"),
        ("P0001600000001  ", "X00017000000000\n"),
    ];
    expect_inside(&rt, rt.alloc(), &cases)?;
    expect(
        &rt,
        rt.alloc(),
        b"K0101600000001 \nP0025500000001 \nP0025600000001 \n",
        b"A01016000000010\nA00255000000010\nX00002000000000\n",
    )
}

#[test]
fn behind_a_kit(rt: HostRuntime) -> Result<(), Fail> {
    // a load or a store that is refused does not start the kit: the place behind it belongs
    let cases = [
        ("L0200000000000 \n", "X00001000000000\n"),
        ("L9999900000000 \n", "X00001000000000\n"),
        ("S02003000000ff \n", "X00001000000000\n"),
        ("L0101600000000 \n", "X00002000000000\n"),
        ("S00999000000ff \n", "X00002000000000\n"),
        ("L0000000000001 \n", "X00017000000000\n"),
        ("S0100300000FFF \n", "X00017000000000\n"),
        ("D0100000000000 \n", "X00017000000000\n"),
        ("D0000000000001 \n", "X00017000000000\n"),
        ("d0000000000000 \n", "X00017000000000\n"),
    ];
    expect_inside(&rt, rt.alloc(), &cases)
}

#[test]
fn starts(rt: HostRuntime) -> Result<(), Fail> {
    // a load, a store or a delivery that is accepted starts the kit: no place belongs behind it
    let cases = [
        ("L0000000000000 \n", "A00000000000000\n"),
        ("L0101500000000 \n", "O01015000000000\n"),
        ("S00003000000ff \n", "A00003000000ff0\n"),
        ("S01003000000ff \n", "O01003000000ff0\n"),
        ("D0000000000000 \n", "Q00000000000000\n"),
        ("D0099900000000 \n", "Q00000000000000\n"),
    ];
    for (record, answer) in cases {
        let script = format!(in rt.alloc(); "K0200100000001 \n{record}P0000100000007 \n")?;
        let listing = format!(in rt.alloc(); "A02001000000010\n{answer}X00018000000000\n")?;
        expect(&rt, rt.alloc(), script.as_bytes(), listing.as_bytes())?;
    }
    Ok(())
}

#[test]
fn running(rt: HostRuntime) -> Result<(), Fail> {
    // behind a load of board 1 that is open
    let cases = [
        ("L0100000000000 \n", "X00003000000000\n"),
        ("S0100000000001 \n", "X00003000000000\n"),
        ("L0101600000000 \n", "X00002000000000\n"),
        ("L0201600000000 \n", "X00001000000000\n"),
        ("L0000000000000 \n", "A00000000000070\n"),
        ("S0000000000009 \n", "A00000000000090\n"),
        ("D0000000000000 \n", "M00001000000000\n"),
        ("K0200100000000 \n", "X00018000000000\n"),
        ("K02001000000", "X00017000000000\n"),
        ("L01000", "X00017000000000\n"),
    ];
    for (record, answer) in cases {
        let script = format!(in rt.alloc();
            "K0200100000000 \nP0000000000007 \nL0100000000000 \n{record}"
        )?;
        let listing = format!(in rt.alloc();
            "A02001000000000\nA00000000000070\nO01000000000000\n{answer}"
        )?;
        expect(&rt, rt.alloc(), script.as_bytes(), listing.as_bytes())?;
    }
    Ok(())
}

#[test]
fn second_kits(rt: HostRuntime) -> Result<(), Fail> {
    // a second K does not belong, whatever its numbers, and ends the program
    let cases = [
        (
            "K0200100000000 \nK0200100000000 \nP0000000000001 \n",
            "A02001000000000\nX00018000000000\n",
        ),
        (
            "K0200100000000 \nK0000000000001 \nP0000000000001 \n",
            "A02001000000000\nX00018000000000\n",
        ),
        (
            "K0200100000000 \nK0200100000002 \nP0000000000001 \n",
            "A02001000000000\nX00017000000000\n",
        ),
        ("K0200100000000 \nK", "A02001000000000\nX00017000000000\n"),
    ];
    expect_each(&rt, rt.alloc(), &cases)
}

#[test]
fn bytes_over_127(rt: HostRuntime) -> Result<(), Fail> {
    let scripts = [
        b"\xcb0200100000000 \n",
        b"K\xb0200100000000 \n",
        b"K0200\xb100000000 \n",
        b"K020010000000\xe1 \n",
        b"K0200100000000\xa0\n",
        b"\xff\xff\xff\xff\xff\xff\xff\xff\xff\xff\xff\xff\xff\xff\xff\xff",
        b"\0\0\0\0\0\0\0\0\0\0\0\0\0\0\0\0",
    ];
    for script in scripts {
        expect(&rt, rt.alloc(), script, b"X00017000000000\n")?;
    }
    Ok(())
}

#[test]
fn cut_short(rt: HostRuntime) -> Result<(), Fail> {
    expect(&rt, rt.alloc(), b"", b"")?;
    let kit = b"K0200100000000 \n";
    for len in 1..kit.len() {
        expect(&rt, rt.alloc(), &kit[..len], b"X00017000000000\n")?;
    }
    let place = b"K0200100000000 \nP000030000002a \n";
    expect(&rt, rt.alloc(), &place[..16], b"A02001000000000\n")?;
    for len in 17..place.len() {
        expect(
            &rt,
            rt.alloc(),
            &place[..len],
            b"A02001000000000\nX00017000000000\n",
        )?;
    }
    Ok(())
}

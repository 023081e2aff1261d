use script::player::Player;
use std::process::Abort;

/// What a player is given, what it answers, and whether the play is over then. No answer is an empty one.
type Given = (&'static str, &'static str, bool);

/// Gives a new player one text after the other.
fn expect(rt: &impl Abort, given: &[Given]) {
    let mut player = Player::new();
    assert!(rt; !player.is_over());
    for (text, line, is_over) in given {
        let answer = player.answer(text.as_bytes());
        let answer = answer
            .as_ref()
            .map_or(b"".as_slice(), |line| line.as_slice());
        assert!(rt; answer == line.as_bytes(), "{text}");
        assert!(rt; player.is_over() == *is_over, "{text}");
    }
}

#[test]
fn records(rt: HostRuntime) {
    // nothing is no record: it is not answered, and changes nothing
    let given = [
        ("", "", false),
        ("D0000000000000 \n", "X00018000000000\n", false),
        ("k0200100000000 \n", "X00017000000000\n", false),
        ("K0200100000000 \n", "A02001000000000\n", false),
        ("", "", false),
        ("S010030000002a \n", "O010030000002a0\n", false),
        ("L0100300000000 \n", "X00003000000000\n", false),
        ("D0000000000000 \n", "M00002000000000\n", false),
        ("D0000000000000 \n", "F010030000002a0\n", false),
        ("", "", false),
        ("D0000000000000 \n", "Q00000000000000\n", false),
    ];
    expect(&rt, &given);
}

/// Nothing is answered behind the text that ends a play.
fn expect_end(rt: &impl Abort, first: Given, last: Given) {
    let given = [
        first,
        last,
        ("L0000000000000 \n", "", true),
        ("K0200100000000 \n", "", true),
        ("L", "", true),
        ("", "", true),
    ];
    expect(rt, &given);
}

#[test]
fn ends(rt: HostRuntime) {
    // a refused record that begins with K, also one of more than sixteen characters, and a record cut short
    let kit = ("K0200100000000 \n", "A02001000000000\n", false);
    let lasts = [
        ("K0200100000000 \n", "X00018000000000\n", true),
        ("K02001000000002\n", "X00017000000000\n", true),
        ("K0200100000000 \n\n", "X00017000000000\n", true),
        ("K0200100000000 ", "X00017000000000\n", true),
        ("L0000000000000 ", "X00017000000000\n", true),
        ("L", "X00017000000000\n", true),
        ("\n", "X00017000000000\n", true),
    ];
    for last in lasts {
        expect_end(&rt, kit, last);
    }
    // before a kit too
    let early = ("D0000000000000 \n", "X00018000000000\n", false);
    expect_end(&rt, early, ("K0000000000000 \n", "X00004000000000\n", true));
    expect_end(&rt, early, ("K", "X00017000000000\n", true));
}

#[test]
fn too_long(rt: HostRuntime) {
    // more than sixteen characters have not the form of a record, and the play goes on behind them
    let given = [
        ("D0000000000000 \nD", "X00017000000000\n", false),
        ("K0200100000000 \n", "A02001000000000\n", false),
        (
            "D0000000000000 \nD0000000000000 \n",
            "X00017000000000\n",
            false,
        ),
        ("D0000000000000 \n\n", "X00017000000000\n", false),
        ("P000030000002a \n", "A000030000002a0\n", false),
    ];
    expect(&rt, &given);
}

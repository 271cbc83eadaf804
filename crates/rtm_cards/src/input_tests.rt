//! Inputs, with the deck and the trace that they hold.

use super::split;
use std::test::Fail;

// An input, its deck and its trace.
type Row = (&'static [u8], &'static [u8], &'static [u8]);

#[test]
fn cuts_behind_the_card_that_ends_the_deck(rt: HostRuntime) -> Result<(), Fail> {
    let rows: [Row; 12] = [
        (
            b"A PROG\n END\nEND ENDED\n",
            b"A PROG\n END\n",
            b"END ENDED\n",
        ),
        (b" END\n END\n", b" END\n", b" END\n"),
        (b"A PROG\n PEND\n", b"A PROG\n PEND\n", b""),
        (b"X END\n NOP", b"X END\n NOP", b""),
        (b" END of the deck\n1", b" END of the deck\n", b"1"),
        (b"   END\n1", b"   END\n", b"1"),
        (b"*END\n* END\n END\n1", b"*END\n* END\n END\n", b"1"),
        (b"END\n END\n1", b"END\n END\n", b"1"),
        (b" ENDS\n EN\n END,\n1", b" ENDS\n EN\n END,\n1", b""),
        (b"\n   \n END\n\n1\n", b"\n   \n END\n", b"\n1\n"),
        (b" NOP\n END", b" NOP\n END", b""),
        (b"", b"", b""),
    ];
    for (input, deck, trace) in rows {
        assert_eq!(rt; split(input), (deck, trace), "{input:?}");
    }
    Ok(())
}

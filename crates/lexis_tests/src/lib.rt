// Examples of reading and writing lines.
#![tactic(auto)]

mod switch;

#[cfg(test)]
mod tests {
    use crate::switch::Switch;
    use lexis::line::{CAPACITY, Line};
    use lexis::reader::Reader;
    use lexis::tokens::{Divider, Token, next_token};

    // The number that a line begins with, or the column at which it fails.
    fn number(text: &[u8], most: u64) -> Result<u64, usize> {
        let mut reader = Reader::new(text);
        let value = reader.number(most, Divider::Close);
        value.map_err(|_| reader.column())
    }

    #[test]
    fn numbers_at_the_edges(rt: HostRuntime) {
        assert_eq!(rt; number(b"0)", 0), Ok(0));
        assert_eq!(rt; number(b"ffffffffffffffff)", u64::MAX), Ok(u64::MAX));
        assert_eq!(rt; number(b"3f)", 0x3f), Ok(0x3f));
    }

    #[test]
    fn numbers_that_fail(rt: HostRuntime) {
        assert_eq!(rt; number(b"", 9), Err(1), "nothing");
        assert_eq!(rt; number(b"00)", 9), Err(2), "a leading zero");
        assert_eq!(rt;
            number(b"10000000000000000)", u64::MAX),
            Err(17),
            "17 digits"
        );
        assert_eq!(rt; number(b"40)", 0x3f), Err(2), "above the most");
        assert_eq!(rt; number(b"5)", 4), Err(1), "above a most below the base");
        assert_eq!(rt; number(b"4 ", 4), Err(2), "another divider");
        assert_eq!(rt; number(b"1F)", 0xff), Err(2), "an upper-case digit");
    }

    // The switch in a line, or the column at which the line fails.
    fn switch(text: &[u8]) -> Result<Switch, usize> {
        let mut reader = Reader::new(text);
        let _ = reader.literal(b"(");
        let switch = reader.choice::<Switch>();
        if reader.is_lost() {
            return Err(reader.column());
        }
        switch.map_err(|lost| lost.column)
    }

    #[test]
    fn keywords(rt: HostRuntime) {
        assert_eq!(rt; switch(b"(on)"), Ok(Switch::On));
        assert_eq!(rt; switch(b"(off) and more"), Ok(Switch::Off));
        assert_eq!(rt; switch(b"(of)"), Err(4), "begins one word");
        assert_eq!(rt; switch(b"(on"), Err(4), "ends early");
        assert_eq!(rt; switch(b"on)"), Err(1), "stays where it was lost");
    }

    #[test]
    fn tokens_have_columns(rt: HostRuntime) {
        let (open, rest) = next_token(b"(read 40)", 1);
        assert!(rt; matches!(open, Token::Open(1)));
        let (word, rest) = next_token(rest, 2);
        assert!(rt; matches!(word, Token::Word(b"read", 2)));
        let (space, rest) = next_token(rest, 6);
        assert!(rt; matches!(space, Token::Space(6)));
        assert_eq!(rt; rest.len(), 3);
    }

    #[test]
    fn a_line_keeps_its_first_bytes(rt: HostRuntime) {
        let mut line = Line::new();
        for _ in 0..CAPACITY {
            line.push(b'x');
        }
        line.hex(0xbeef);
        assert_eq!(rt; line.len(), CAPACITY);
        let mut buffer = [0; 300];
        assert_eq!(rt; line.copy_to(&mut buffer, 45), None);
        assert_eq!(rt; line.copy_to(&mut buffer, 44), Some(300));
        assert_eq!(rt; buffer[43], 0);
        assert_eq!(rt; buffer[299], b'x');
    }

    #[test]
    fn hexadecimal_is_written_short(rt: HostRuntime) {
        let mut line = Line::new();
        line.hex(0);
        line.put(b" ");
        line.hex(0x1a0);
        let mut buffer = [0; 8];
        assert_eq!(rt; line.copy_to(&mut buffer, 2), Some(7));
        assert_eq!(rt; buffer, *b"\0\x000 1a0\0");
    }
}

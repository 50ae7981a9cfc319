// Examples of change lines.
#![tactic(auto)]

#[cfg(test)]
mod tests {
    use changes::read::read_changes;
    use changes::round_trip::read_back;
    use changes::writable::is_writable;
    use changes::write::write_changes;
    use interval::stretches::TOP;
    use model::changes::Change;
    use model::kinds::Kind;
    use model::places::Place;
    use model::ranges::Range;
    use std::process::Abort;

    // Memory that takes writes.
    fn ram(start: u64, length: u64) -> Range {
        let label = Place {
            leaf: 1,
            device: 0,
            offset: 0,
            kind: Kind::Ram,
            writes: true,
        };
        Range {
            start,
            length,
            label,
        }
    }

    // The change has this line, written and read.
    fn is_line(rt: &impl Abort, change: Change, text: &[u8]) {
        let mut buffer = [0; 128];
        assert_eq!(rt; write_changes(&[change], &mut buffer), Some(text.len()));
        assert!(rt; buffer.starts_with(text));
        let mut records = [Change::Removal(ram(0, 1)); 1];
        assert_eq!(rt; read_changes(text, &mut records), Some(1));
        assert_eq!(rt; records[0], change);
    }

    #[test]
    fn lines_of_all_kinds(rt: HostRuntime) {
        let mut rom = ram(0x4000, 0x400);
        rom.label = Place {
            leaf: 2,
            device: 1,
            offset: 0,
            kind: Kind::Rom,
            writes: false,
        };
        is_line(
            &rt,
            Change::Addition(rom),
            b"(+ (at 4000) (length 400) (leaf 2 (device 1) (offset 0)) (kind rom) (writes no))\n",
        );
        is_line(
            &rt,
            Change::Removal(ram(0xabc, 1)),
            b"(- (at abc) (length 1) (leaf 1 (device 0) (offset 0)) (kind ram) (writes yes))\n",
        );
        let mut registers = ram(0, TOP);
        registers.label.leaf = 0x3f;
        registers.label.device = 0xffff;
        registers.label.kind = Kind::Reg;
        is_line(
            &rt,
            Change::Addition(registers),
            b"(+ (at 0) (length 10000000000) (leaf 3f (device ffff) (offset 0)) (kind reg) (writes yes))\n",
        );
    }

    #[test]
    fn changes_without_a_line(rt: HostRuntime) {
        let mut leafless = ram(0, 2);
        leafless.label.leaf = 0;
        let mut past_the_leaves = ram(0, 2);
        past_the_leaves.label.leaf = 0x40;
        let mut far_offset = ram(0, 2);
        far_offset.label.offset = TOP - 1;
        let mut writable_rom = ram(0, 2);
        writable_rom.label.kind = Kind::Rom;
        let ranges = [
            leafless,
            past_the_leaves,
            far_offset,
            writable_rom,
            ram(0, 0),
            ram(1, TOP),
            ram(u64::MAX, 1),
        ];
        for range in ranges {
            assert!(rt; !is_writable(&Change::Addition(range)));
        }
        assert_eq!(rt;
            write_changes(&[Change::Addition(leafless)], &mut [0; 99]),
            None
        );
    }

    // Not lines, each for one reason.
    const BAD: [&[u8]; 12] = [
        // a leading zero, upper case, no line feed, two spaces, a byte more, a device past ffff
        b"(+ (at 00) (length 1) (leaf 1 (device 0) (offset 0)) (kind ram) (writes no))\n",
        b"(+ (at A) (length 1) (leaf 1 (device 0) (offset 0)) (kind ram) (writes no))\n",
        b"(+ (at 0) (length 1) (leaf 1 (device 0) (offset 0)) (kind ram) (writes no))",
        b"(+ (at 0)  (length 1) (leaf 1 (device 0) (offset 0)) (kind ram) (writes no))\n",
        b"(+ (at 0) (length 1) (leaf 1 (device 0) (offset 0)) (kind ram) (writes no))\n(",
        b"(+ (at 0) (length 1) (leaf 1 (device 10000) (offset 0)) (kind ram) (writes no))\n",
        // no length, no leaf, a leaf past 3f, ends and offsets past 2^40, fixed content that takes writes
        b"(+ (at 0) (length 0) (leaf 1 (device 0) (offset 0)) (kind ram) (writes no))\n",
        b"(+ (at 0) (length 1) (leaf 0 (device 0) (offset 0)) (kind ram) (writes no))\n",
        b"(+ (at 0) (length 1) (leaf 40 (device 0) (offset 0)) (kind ram) (writes no))\n",
        b"(+ (at 1) (length 10000000000) (leaf 1 (device 0) (offset 0)) (kind ram) (writes no))\n",
        b"(+ (at 0) (length 1) (leaf 1 (device 0) (offset 10000000000)) (kind ram) (writes no))\n",
        b"(+ (at 0) (length 1) (leaf 1 (device 0) (offset 0)) (kind rom) (writes yes))\n",
    ];

    fn is_refused(rt: &impl Abort, text: &[u8]) {
        let mut records = [Change::Removal(ram(0, 1)); 2];
        assert_eq!(rt; read_changes(text, &mut records), None);
    }

    #[test]
    fn bytes_that_are_no_list(rt: HostRuntime) {
        for text in BAD {
            is_refused(&rt, text);
        }
    }

    #[test]
    fn no_bytes_are_the_empty_list(rt: HostRuntime) {
        assert_eq!(rt; read_changes(b"", &mut []), Some(0));
        assert_eq!(rt; write_changes(&[], &mut []), Some(0));
    }

    #[test]
    fn room_to_the_byte(rt: HostRuntime) {
        let list = [Change::Removal(ram(0, 1)), Change::Addition(ram(0, 2))];
        let spare = Change::Addition(ram(5, 5));
        let mut records = [spare; 3];
        assert_eq!(rt;
            read_back(&list, &mut [0; 153], &mut records),
            None,
            "a byte short"
        );
        assert_eq!(rt;
            read_back(&list, &mut [0; 154], &mut [spare; 1]),
            None,
            "a record short"
        );
        assert_eq!(rt; records[0], spare, "nothing is stored");
        assert_eq!(rt; read_back(&list, &mut [0; 154], &mut records), Some(2));
        assert_eq!(rt; records[1], list[1]);
        assert_eq!(rt; records[2], spare, "the record past the list stays");
    }
}

// Examples of banks at the edges of their devices.
#![tactic(auto)]

#[cfg(test)]
mod tests {
    use bank::bank::{Bank, PastEnd};
    use bank::joint::{ByteWrite, write_both};
    use bank::pair::Pair;
    use bank::ram::Ram;
    use bank::registers::Registers;
    use bank::rom::Rom;
    use bank::transfer::{load, store};
    use model::kinds::Kind;

    #[test]
    fn ram_shows_its_length(rt: HostRuntime) {
        assert_eq!(rt; Ram::new(0).len(0), 8192);
        assert_eq!(rt; Ram::new(1).len(0), 1);
        assert_eq!(rt; Ram::new(8192).len(0), 8192);
        assert_eq!(rt; Ram::new(8193).len(0), 8192);
    }

    #[test]
    fn ram_ends_at_its_length(rt: HostRuntime) {
        let mut ram = Ram::new(16);
        assert_eq!(rt; ram.write(0, 15, 0xab), Ok(()));
        assert_eq!(rt; ram.read(0, 15), Some(0xab));
        assert_eq!(rt; ram.write(0, 16, 0xab), Err(PastEnd));
        assert_eq!(rt; ram.read(0, 16), None);
        assert_eq!(rt; ram.mask(0, 15), Some(0xff));
    }

    #[test]
    fn absent_device_is_empty_rom(rt: HostRuntime) {
        let mut ram = Ram::new(16);
        assert_eq!(rt; ram.kind(1), Kind::Rom);
        assert_eq!(rt; ram.len(1), 0);
        assert_eq!(rt; ram.read(1, 0), None);
        assert_eq!(rt; ram.write(1, 0, 1), Err(PastEnd));
    }

    #[test]
    fn rom_keeps_its_bytes(rt: HostRuntime) {
        let mut rom = Rom::new(b"hello");
        assert_eq!(rt; rom.write(0, 4, b'x'), Ok(()));
        assert_eq!(rt; rom.read(0, 4), Some(b'o'));
        assert_eq!(rt; rom.write(0, 5, b'x'), Err(PastEnd));
        assert_eq!(rt; rom.read(0, 5), None);
        assert_eq!(rt; Rom::new(&[7; 8193]).len(0), 8192);
    }

    #[test]
    fn register_takes_its_mask(rt: HostRuntime) {
        let mut registers = Registers::new([0x0f; 256]);
        assert_eq!(rt; registers.write(0, 255, 0xab), Ok(()));
        assert_eq!(rt; registers.read(0, 255), Some(0x0b));
        assert_eq!(rt; registers.write(0, 256, 0xab), Err(PastEnd));
        assert_eq!(rt; registers.mask(0, 256), None);
    }

    #[test]
    fn nested_pair_shares_its_numbers(rt: HostRuntime) {
        let inner = Pair::new(Ram::new(16), Rom::new(b"hello"));
        let pair = Pair::new(inner, Registers::new([0; 256]));
        assert_eq!(rt; pair.kind(0), Kind::Ram);
        assert_eq!(rt; pair.kind(1), Kind::Reg);
        assert_eq!(rt; pair.read(2, 4), Some(b'o'));
        assert_eq!(rt; pair.len(65_534), 0);
        assert_eq!(rt; pair.kind(65_535), Kind::Rom);
    }

    #[test]
    fn runs_stop_at_the_end(rt: HostRuntime) {
        let mut ram = Ram::new(4);
        let mut out = [9; 4];
        assert_eq!(rt; store(&mut ram, 0, 2, b"abc"), 2);
        assert_eq!(rt; load(&ram, 0, 1, &mut out), 3);
        assert_eq!(rt; out, [0, b'a', b'b', 9]);
        assert_eq!(rt; load(&ram, 0, 5, &mut out), 0);
    }

    #[test]
    fn neither_where_one_is_past(rt: HostRuntime) {
        let mut ram = Ram::new(4);
        let here = ByteWrite {
            device: 0,
            offset: 3,
            byte: 1,
        };
        let past = ByteWrite {
            device: 0,
            offset: 4,
            byte: 1,
        };
        assert_eq!(rt; write_both(&mut ram, here, past), Err(PastEnd));
        assert_eq!(rt; ram.read(0, 3), Some(0));
        assert_eq!(rt; write_both(&mut ram, here, here), Ok(()));
        assert_eq!(rt; ram.read(0, 3), Some(1));
    }
}

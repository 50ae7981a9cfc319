// Examples of listeners at the edges of their rules.
#![tactic(auto)]

#[cfg(test)]
mod tests {
    use interval::stretches::Stretch;
    use listener::kind_filter::{KindFilter, Kinds};
    use listener::listener::Listener;
    use listener::range_table::RangeTable;
    use listener::slot_table::SlotTable;
    use model::kinds::Kind;
    use model::places::Place;
    use model::ranges::Range;
    use std::test::Fail;

    const TOP: u64 = 1 << 40;

    const RAM: Kinds = Kinds {
        ram: true,
        rom: false,
        reg: false,
    };

    const RAM_AND_REG: Kinds = Kinds {
        ram: true,
        rom: false,
        reg: true,
    };

    fn range(start: u64, length: u64, kind: Kind) -> Range {
        Stretch {
            start,
            length,
            label: Place {
                leaf: 1,
                device: 2,
                offset: 0x10,
                kind,
                writes: true,
            },
        }
    }

    #[test]
    fn a_range_has_an_address_and_ends_by_the_top(rt: HostRuntime) -> Result<(), Fail> {
        let mut table = RangeTable::new();
        assert!(rt; table.add(range(0x10, 0, Kind::Ram)).is_err());
        assert!(rt; table.add(range(TOP - 0xf, 0x10, Kind::Ram)).is_err());
        table.add(range(TOP - 0x10, 0x10, Kind::Ram))?;
        assert_eq!(rt; table.count(), 1);
        Ok(())
    }

    #[test]
    fn ranges_touch_and_do_not_overlap(rt: HostRuntime) -> Result<(), Fail> {
        let mut table = RangeTable::new();
        table.add(range(0x10, 0x10, Kind::Ram))?;
        assert!(rt; !table.would_take(range(0x1f, 0x10, Kind::Rom)));
        assert!(rt; table.add(range(0, 0x11, Kind::Rom)).is_err());
        table.add(range(0x20, 0x10, Kind::Rom))?;
        table.add(range(0, 0x10, Kind::Reg))?;
        assert_eq!(rt; table.room(), 253);
        Ok(())
    }

    #[test]
    fn a_removal_names_all_seven_parts(rt: HostRuntime) -> Result<(), Fail> {
        let held = range(0x10, 0x10, Kind::Ram);
        let mut others = [held; 7];
        others[0].start = 0x11;
        others[1].length = 0xf;
        others[2].label.leaf = 2;
        others[3].label.device = 1;
        others[4].label.offset = 0;
        others[5].label.kind = Kind::Rom;
        others[6].label.writes = false;
        let mut table = RangeTable::new();
        table.add(held)?;
        for other in others.iter() {
            assert!(rt; table.remove(*other).is_err());
        }
        table.remove(held)?;
        assert_eq!(rt; table.count(), 0);
        Ok(())
    }

    #[test]
    fn a_range_stays_in_its_slot(rt: HostRuntime) -> Result<(), Fail> {
        let mut table = SlotTable::new();
        assert!(rt; table.add(range(0, 0x10, Kind::Reg)).is_err());
        for i in 0..32 {
            table.add(range(i * 0x10, 0x10, Kind::Rom))?;
        }
        let late = range(0x200, 0x10, Kind::Rom);
        assert!(rt; table.add(late).is_err());
        let slot = table.slot_of(&range(0x1f0, 0x10, Kind::Rom));
        table.remove(range(0, 0x10, Kind::Rom))?;
        table.add(late)?;
        assert_eq!(rt; table.slot_of(&range(0, 0x10, Kind::Rom)), None);
        assert_eq!(rt; table.slot_of(&range(0x1f0, 0x10, Kind::Rom)), slot);
        assert_ne!(rt; table.slot_of(&late), slot);
        assert_eq!(rt; table.count(), 32);
        Ok(())
    }

    #[test]
    fn a_filter_over_a_filter_takes_what_both_take(rt: HostRuntime) -> Result<(), Fail> {
        let mut table = RangeTable::new();
        table.add(range(0, 0x10, Kind::Rom))?;
        let inner = KindFilter::new(table, RAM_AND_REG);
        let mut filter = KindFilter::new(inner, RAM);
        assert!(rt; filter.takes(Kind::Ram));
        assert!(rt; filter.add(range(0x10, 0x10, Kind::Reg)).is_err());
        filter.add(range(0x10, 0x10, Kind::Ram))?;
        filter.remove(range(0, 0x10, Kind::Rom))?;
        assert_eq!(rt; filter.count(), 1);
        assert_eq!(rt; filter.into_inner().into_inner().count(), 1);
        Ok(())
    }
}

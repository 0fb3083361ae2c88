// A call on a grader: the eight that may change it, and the two questions.
#[derive(Clone, Copy, PartialEq, Eq)]
pub enum Call<V> {
    Open {
        panel: u8,
        person: u16,
    },
    Close {
        panel: u8,
    },
    Take {
        panel: u8,
        role: u8,
    },
    Drop {
        panel: u8,
        role: u8,
    },
    Lend {
        panel: u8,
        borrower: u16,
        role: u8,
        minutes: u16,
    },
    Recall {
        panel: u8,
        borrower: u16,
        role: u8,
    },
    Enter {
        person: u16,
        record: V,
    },
    Tick {
        minute: u32,
    },
    Entitled {
        person: u16,
        role: u8,
    },
    Roles {
        panel: u8,
    },
}

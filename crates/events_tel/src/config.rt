// Configuration traits, and lists of their bytes (docs/RULES.md, "Configuration traits").
ghost use Rattle.std.specs.Prelude.{◌≡◌, ◌≤◌, [], length, get_or, is_ok, OnErr};
ghost use Rattle.events_tel.specs.Configs.{code_of, trait_of, view_configs, has_room, pushed, has_code, no_backers};

use crate::{ConfigTrait, Configs, NoRoom};

impl ConfigTrait {
    // `as u8` under a name, whose contract says which byte it is.
    pub fn code(self) -> u8
        ensures { result ≡ code_of self }
    {
        self as u8
    }

    #[tactic(auto, unfolding(crate::specs::Configs::trait_of))]
    pub fn from_code(code: u8) -> Option<ConfigTrait>
        ensures { result ≡ trait_of code }
    {
        match code {
            1 => Some(ConfigTrait::EstOnly),
            2 => Some(ConfigTrait::DoNotDelegate),
            3 => Some(ConfigTrait::NoBackers),
            4 => Some(ConfigTrait::RegistrarBackers),
            5 => Some(ConfigTrait::NoRegistrarBackers),
            6 => Some(ConfigTrait::DelegateIsDelegator),
            _ => None,
        }
    }
}

impl Configs {
    #[tactic(auto, unfolding(crate::specs::Configs::view_configs))]
    pub fn empty() -> Configs
        ensures { view_configs result ≡ [] }
    {
        Configs {
            codes: [0u8; 8],
            count: 0,
        }
    }

    // The bytes that are counted: at most 8, whatever the count says.
    pub fn as_slice(&self) -> &[u8]
        ensures { result.now ≡ view_configs self.now }
    {
        let n = self.count.min(8);
        &self.codes[..n]
    }

    // How many there are.
    pub fn size(self) -> usize
        ensures { result ≡ length (view_configs self) }
    {
        self.as_slice().len()
    }

    // The same bytes, and no count past them.
    pub fn trimmed(self) -> Configs
        ensures { (view_configs result ≡ view_configs self) × (result.count ≤ 8) }
    {
        let codes = self.codes;
        let count = self.size();
        Configs { codes, count }
    }

    // The byte at i, or 0 where there is none.
    pub fn item(self, i: usize) -> u8
        ensures { result ≡ get_or (view_configs self) i 0 }
    {
        let codes = self.as_slice();
        if i < codes.len() { codes[i] } else { 0 }
    }

    // One more byte behind the last. Where there is no room the list stays as it was.
    pub fn push(&mut self, code: u8) -> Result<(), NoRoom>
        ensures ok { is_ok result ≡ has_room (view_configs self.old) }
        ensures list { view_configs self.new ≡ pushed (view_configs self.old) code }
        ensures kept { OnErr result (self.new ≡ self.old) }
    {
        let n = self.count;
        if n < 8 {
            self.codes[n] = code;
            self.count = n + 1;
            return Ok(());
        }
        Err(NoRoom)
    }

    // Whether the trait NoBackers is in the list.
    #[tactic(auto, unfolding(crate::specs::Configs::no_backers))]
    pub fn no_backers(self) -> bool
        ensures { result ≡ no_backers (view_configs self) }
    {
        self.has(ConfigTrait::NoBackers.code())
    }

    fn has(self, code: u8) -> bool
        ensures { result ≡ has_code code (view_configs self) }
    {
        self.as_slice().contains(&code)
    }
}

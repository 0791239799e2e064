// What holds of texts. The bodies are empty: what is said is the contracts.
ghost use Rattle.bfs_digest.specs.Laws.Texts.{AFileSystemHasOneText, ATextSpellsOneFileSystem, LiveFilesAreSpellable, OlderTextsAreSpellable};

/// A file system has one text in each version.
pub fn a_file_system_has_one_text()
    ensures { AFileSystemHasOneText }
{}

/// A text spells at most one file system, in one version.
pub fn a_text_spells_one_file_system()
    ensures { ATextSpellsOneFileSystem }
{}

/// Every live file system has a text in the latest version.
pub fn live_files_are_spellable()
    ensures { LiveFilesAreSpellable }
{}

/// What a text of an older version spells has a text in the latest version.
pub fn older_texts_are_spellable()
    ensures { OlderTextsAreSpellable }
{}

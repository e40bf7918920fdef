//! Laws about what is written. A law is a function that does nothing: its contract is the law.
ghost use Rattle.std.specs.Prelude.{◌≡◌, ◌++◌, ℕ, List, None, Option, false};
ghost use Rattle.std.specs.List.{flat_map};
ghost use Rattle.std.specs.Io.KnownBytes.{Appends};
ghost use Rattle.stream_facts.specs.Facts.{facts_in};
ghost use Rattle.stream_facts.specs.Json.{object_of};
ghost use Rattle.stream_facts.specs.Lines.{head_line, line_of};
ghost use Rattle.stream_files.specs.Ivf.{IsIvf, header_length};
ghost use Rattle.stream_files.specs.declared.streams.Stream.{Stream};
ghost use Rattle.macroblock_lists.specs.declared.layouts.Form.TheVariants.{Lines, Objects};
ghost use Rattle.webm_files.specs.Files.{is_marked};
ghost use Rattle.command_lines.specs.Readings.{Known};
ghost use Rattle.list_program.specs.Done.{IsStatus};
ghost use Rattle.list_program.specs.Lists.{IsListed};
ghost use Rattle.list_program.specs.declared.arguments.Arguments.{Arguments};

/// Of bytes that do not begin with EBML's mark the list is that of the IVF file that they are: the facts of its packets by the byte at
/// which its first record begins.
pub fn ivf_lists_are_of_records()
    ensures lines { (bytes : List ℕ) (output output' : Option (List ℕ)) → is_marked bytes ≡ false → IsListed Lines bytes output output'
        → (file : Stream) × IsIvf bytes file × Appends output output' (head_line ++ flat_map line_of (facts_in (header_length bytes) file.packets)) }
    ensures objects { (bytes : List ℕ) (output output' : Option (List ℕ)) → is_marked bytes ≡ false → IsListed Objects bytes output output'
        → (file : Stream) × IsIvf bytes file × Appends output output' (flat_map object_of (facts_in (header_length bytes) file.packets)) }
{}

/// The exit status of options that do not go together is 2.
pub fn misfits_end_with_2()
    ensures { (known : Known) (line : Arguments) (left left' output output' : Option (List ℕ)) (status : ℕ) → line.output ≡ None → IsStatus known line left left' output output' status → status ≡ 2 }
{}
